// A record of an image that was opened: the image, the record's index, and its kind.
// (Which kind it is, a reader of its parts asks of the caller. A type for each kind, or a const parameter of its byte, would be made in the arm of the
// match that has just found the kind: the fact stands in the same place, by thirteen structs of one field, and no plainer.)
ghost use Rattle.image_kinds.specs.Codes.{code_of};
ghost use Rattle.image_read_parts.specs.Indexed.{IsAt};

use image_directory::image::Image;
use image_kinds::kinds::Kind;

#[derive(Clone, Copy)]
pub struct RecordAt<'a> {
    pub image: Image<'a>,
    pub index: usize,
    pub kind: Kind,
    pub ghost there: { IsAt image index (code_of kind) },
}
