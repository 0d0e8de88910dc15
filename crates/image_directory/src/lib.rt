// The directory of an image: the pairs that tile its bytes (question 3), and the loop over its records (question 4).
#![tactic(auto)]

ghost use Rattle.std.specs.Prelude.{◌≡◌, true, ◌≤◌};
ghost use Rattle.image_spec.specs.Image.{tiled_from};
ghost use Rattle.image_directory.specs.Slots.{Width, slot_at, formed_from};

pub mod image;

use image_fields::fields::Fields;
use image_fields::number;
use image_kinds::form::record_formed;

// The widths of an image's fields, its number of records, and where its directory and its records begin.
#[derive(Clone, Copy, PartialEq, Eq)]
pub struct Frame {
    pub id: usize,
    pub place: usize,
    pub count: usize,
    pub from: usize,
    pub start: usize,
}

impl Frame {
    // The limits of a source (question 7): its records, a count in one of them, and its statements' depth.
    pub const MAX_SOURCE_RECORDS: usize = 2000;

    pub const MAX_SOURCE_COUNT: u8 = 32;

    pub const MAX_SOURCE_DEPTH: usize = 64;

    // What linearization works with, by the records of its source: at most two are written for each.
    pub const MAX_OUTPUT_RECORDS: usize = 2 * Frame::MAX_SOURCE_RECORDS;

    // What is worked with is cleared in each call, so a small image gets less of it.
    pub const FEW_SOURCE_RECORDS: usize = 64;

    pub const FEW_OUTPUT_RECORDS: usize = 2 * Frame::FEW_SOURCE_RECORDS;
}

// A pair of the directory: where a record begins, and its length.
#[derive(Clone, Copy, PartialEq, Eq)]
pub struct Slot {
    pub offset: usize,
    pub size: usize,
}

// The pair from at, with numbers of `place` bytes; none where the bytes end.
pub fn read_slot(image: &[u8], place: usize, at: usize) -> Option<Slot>
    requires { Width place }
    ensures { result ≡ slot_at place at image.now }
{
    if image.len() < at || image.len() - at < place + place {
        return None;
    }
    let offset = number(image, at, place) as usize;
    let size = number(image, at + place, place) as usize;
    Some(Slot { offset, size })
}

// Question 3: do the pairs of a frame's directory tile the bytes from where its records begin to their end?
// (`image` and `frame`, here and below: they are an `Image` once they have passed both questions. A `for` that returns, here and below: each record
// begins where the one before ends. Two walks over the pairs: question 4 is asked of no record before question 3 has a yes for all.)
pub fn tiled(image: &[u8], frame: Frame) -> bool
    requires { Width frame.place }
    ensures { result ≡ tiled_from frame.place frame.count frame.from frame.start image.now }
{
    let len = image.len();
    if len < frame.start {
        return false;
    }
    let mut at = frame.from;
    let mut here = frame.start;
    for _ in 0..frame.count {
        let Some(slot) = read_slot(image, frame.place, at) else {
            return false;
        };
        if slot.offset != here || len - here < slot.size {
            return false;
        }
        // (`at` goes on beside `here`, here and below: both are where the next begins, and one law takes a step of both. No `chunks_exact`: the
        // directory may end before its last pair.)
        here += slot.size;
        at += frame.place + frame.place;
    }
    here == len
}

// Question 4: are the records of a frame's pairs, which tile the bytes, formed?
pub fn all_formed(image: &[u8], frame: Frame) -> bool
    requires { (frame.id ≤ 8) × (Width frame.place × (tiled_from frame.place frame.count frame.from frame.start image.now ≡ true)) }
    ensures { result ≡ formed_from frame.id frame.place frame.count frame.from frame.start image.now }
{
    let mut at = frame.from;
    let mut here = frame.start;
    for _ in 0..frame.count {
        let Some(slot) = read_slot(image, frame.place, at) else {
            return false;
        };
        let end = here + slot.size;
        let fields = Fields {
            bytes: &image[here..end],
            id: frame.id,
        };
        if !record_formed(&fields) {
            return false;
        }
        here = end;
        at += frame.place + frame.place;
    }
    true
}
