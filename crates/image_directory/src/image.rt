// An image that has passed questions 1 to 4: its bytes, and where its records stand in them.
ghost use Rattle.std.specs.Prelude.{◌≡◌, ◌<◌, ◌+◌, ◌*◌, Some};
ghost use Rattle.image_directory.specs.Slots.{Ready, slot_at};

use crate::{Frame, Slot, read_slot};
use image_fields::fields::Fields;

#[derive(Clone, Copy)]
pub struct Image<'a> {
    pub bytes: &'a [u8],
    pub frame: Frame,
    pub ghost ready: { Ready frame bytes.now },
}

// The pair of the record at index i.
// (`image` and `i`: the kind of the record is not known before its pair is, so it is no `RecordAt`.)
// (That i is below the count is asked: what has it as a field is a `RecordAt`, which is made after.)
pub fn slot_of(image: &Image<'_>, i: usize) -> Slot
    requires { i < image.now.frame.count }
    ensures { let frame = image.now.frame in
        slot_at frame.place (frame.from + i * (frame.place + frame.place)) image.now.bytes.now ≡ Some result }
{
    let place = image.frame.place;
    read_slot(image.bytes, place, image.frame.from + i * (place + place)).unwrap()
}

impl<'a> Image<'a> {
    // What its records' parts are read from.
    pub fn fields(&self) -> Fields<'a>
        ensures bytes { result.bytes.now ≡ self.now.bytes.now }
        ensures id { result.id ≡ self.now.frame.id }
    {
        Fields {
            bytes: self.bytes,
            id: self.frame.id,
        }
    }
}
