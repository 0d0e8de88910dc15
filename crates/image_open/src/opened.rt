// An image that has passed questions 1 to 5: how many definitions it has, and its max_id.
ghost use Rattle.image_directory.specs.Images.{records_of};
ghost use Rattle.image_open.specs.Opening.{Shaped};

use image_directory::image::Image;

#[derive(Clone, Copy)]
pub struct Opened<'a> {
    pub image: Image<'a>,
    pub definitions: usize,
    pub max_id: u32,
    pub ghost shaped: { Shaped definitions (records_of image) },
}
