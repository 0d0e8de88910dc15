// Making a call again, and what it leaves.
use crate::call::{Call, Function};
use try_building::answer::Answer;

// Each lent buffer is the beginning of an array of so many bytes, 64 more than the oracle lends at most, and all of it is compared.
pub const GUARDED: usize = 65600;

// The arrays. They are there once, and a call fills those that it takes anew: a function's own would be set to zero before that.
#[derive(Drop)]
pub struct Arrays {
    // Of the output buffer, of a stepper that of the store.
    pub lent: [u8; GUARDED],
    pub events: [u8; GUARDED],
    // What the calls of steppers on an image are expected to leave in the array that their stores are the beginning of.
    pub left: [u8; GUARDED],
}

impl Arrays {
    pub fn new() -> Arrays {
        Arrays {
            lent: [0; GUARDED],
            events: [0; GUARDED],
            left: [0; GUARDED],
        }
    }
}

// An image and a copy of it that no call is lent, since no call may change it.
#[derive(Clone, Copy)]
pub struct Image<'a> {
    pub bytes: &'a [u8],
    pub kept: &'a [u8],
}

impl Image<'_> {
    pub fn is_kept(self) -> bool {
        self.bytes == self.kept
    }
}

// What a call answered, and what it left.
#[derive(Clone, Copy)]
pub struct Outcome {
    pub answer: Answer,
    // The first place at which the lent buffer is not as expected, and of a stepper the same of the event buffer.
    pub buffer: Option<usize>,
    pub events: Option<usize>,
    // Whether the image is as it was: a yes or no, since no place in it is told.
    pub image: bool,
}

impl Outcome {
    pub fn agrees(self, call: Call<'_>) -> bool {
        self.answer == call.expected && self.buffer.is_none() && self.events.is_none() && self.image
    }
}

// What length and max_id are before a call, and all of the answer where the call is not made: no answer has it.
pub const NONE: u32 = 99999;

pub const UNASKED: Answer = Answer {
    number: NONE,
    length: NONE as usize,
    max_id: NONE as u64,
};

// Are all of them this byte? (No stop at the first other one: so many bytes are compared at a time.)
fn full_of(bytes: &[u8], byte: u8) -> bool {
    bytes.iter().fold(0, |others, b| others | (*b ^ byte)) == 0
}

// The first place at which a buffer has another byte than expected: the text, and behind it the rest byte.
pub fn differs(buffer: &[u8], text: &[u8], rest: u8) -> Option<usize> {
    let agrees = match buffer.split_at_checked(text.len()) {
        Some((front, behind)) => front == text && full_of(behind, rest),
        None => text.starts_with(buffer),
    };
    if agrees {
        return None;
    }
    buffer
        .iter()
        .enumerate()
        .position(|(i, b)| *b != text.get(i).copied().unwrap_or(rest))
}

// `call` and `image`, also in steppers.rt: an image comes once, and its calls behind it. `out` is written, as in the library's function.
// (`Call::make` of try_cases and this: each takes a `Call` of its own input.)
fn ask(call: Call<'_>, image: &[u8], out: &mut [u8]) -> Answer {
    let mut length = NONE as usize;
    let mut max_id = NONE;
    let number = match call.function {
        Function::Read => axcut::axcut_read(image, &mut length, &mut max_id),
        Function::Check => axcut::axcut_check(image, &mut length, &mut max_id),
        Function::Linearize => axcut::axcut_linearize(image, out, &mut length, &mut max_id),
        // Annotate: no call of a stepper comes here.
        _ => {
            let record = call.index as usize;
            axcut::axcut_annotate(image, record, out, &mut length, &mut max_id)
        }
    };
    Answer {
        number,
        length,
        max_id: u64::from(max_id),
    }
}

// Makes a call, and looks at all that it could have written. A buffer that is larger than the array gets none of it.
pub fn replay(call: Call<'_>, image: Image<'_>, array: &mut [u8; GUARDED]) -> Outcome {
    let room = call.room;
    *array = [call.old; GUARDED];
    let (answer, buffer) = match array.split_at_mut_checked(room) {
        Some((out, behind)) => {
            let answer = ask(call, image.bytes, out);
            let place = differs(out, call.text, call.rest()).or_else(|| {
                differs(behind, b"", call.old).map(|place| place.saturating_add(room))
            });
            (answer, place)
        }
        None => (UNASKED, Some(0)),
    };
    Outcome {
        answer,
        buffer,
        events: None,
        image: image.is_kept(),
    }
}
