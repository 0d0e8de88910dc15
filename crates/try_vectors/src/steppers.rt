// Making a call of a stepper again, and what it leaves.
use crate::call::{Call, Function};
use crate::replay::{Arrays, GUARDED, Image, NONE, Outcome, UNASKED, differs};
use try_building::answer::Answer;
use try_building::reader::Reader;

// Changes of a store, read from the front. Behind their end they go on with zero bytes, so changes that are cut off are read too.
#[derive(Clone, Copy)]
struct Changes<'a> {
    rest: Reader<'a>,
}

impl<'a> Changes<'a> {
    fn new(bytes: &'a [u8]) -> Changes<'a> {
        Changes {
            rest: Reader::new(bytes),
        }
    }

    fn byte(&mut self) -> u8 {
        self.rest.byte().unwrap_or(0)
    }

    fn half(&mut self) -> u16 {
        let low = self.byte();
        u16::from_le_bytes([low, self.byte()])
    }

    // Makes the next changes: a count, and for each byte its distance from the place of the one before (the first from 0) and the byte. One
    // past the array is left out.
    fn make(&mut self, array: &mut [u8]) {
        let mut at = 0usize;
        for _ in 0..self.half() {
            at = at.saturating_add(usize::from(self.byte()));
            let byte = self.byte();
            if let Some(place) = array.get_mut(at) {
                *place = byte;
            }
        }
    }
}

// What a call of a stepper has beside the expected events.
#[derive(Clone, Copy)]
struct Beside<'a> {
    // The length of the event buffer.
    events: usize,
    // The values of a start; none where they are cut off.
    values: Option<&'a [u8]>,
    changes: Changes<'a>,
}

// Where the values begin, behind the two lengths.
const VALUES: usize = 4;

impl<'a> Beside<'a> {
    fn of(more: &'a [u8]) -> Beside<'a> {
        let mut lengths = Changes::new(more);
        let events = usize::from(lengths.half());
        let end = VALUES + usize::from(lengths.half());
        Beside {
            events,
            values: more.get(VALUES..end),
            changes: Changes::new(more.get(end..).unwrap_or(b"")),
        }
    }
}

// `values`, `store` and `events`: as the library's functions take them.
// A start reports no events and no steps. Before a step made and length hold numbers that no answer has.
fn ask(call: Call<'_>, image: &[u8], values: &[u8], store: &mut [u8], events: &mut [u8]) -> Answer {
    let index = call.index;
    let before = if call.function.starts() { 0 } else { NONE };
    let mut made = u64::from(before);
    let mut length = before as usize;
    let number = match call.function {
        Function::SourceStart => { axcut::axcut_source_start(image, index as usize, values, store) }
        Function::LinearStart => { axcut::axcut_linear_start(image, index as usize, values, store) }
        Function::SourceStep => {
            axcut::axcut_source_step(image, index, store, events, &mut made, &mut length)
        }
        // LinearStep, and a code of no function: no call but one of these comes here.
        _ => axcut::axcut_linear_step(image, index, store, events, &mut made, &mut length),
    };
    Answer {
        number,
        length,
        max_id: made,
    }
}

// The call with the first bytes of two arrays as its buffers, where it can be made.
fn asked(
    call: Call<'_>,
    image: &[u8],
    beside: Beside<'_>,
    store: &mut [u8],
    events: &mut [u8],
) -> Option<Answer> {
    let store = store.get_mut(..call.room)?;
    let events = events.get_mut(..beside.events)?;
    Some(ask(call, image, beside.values?, store, events))
}

// Makes a call and looks at all that it could have written. `left` has what the call before must have left in its store, and then what
// this one must leave: so the store goes by what is expected, whatever was answered.
pub fn replay_steps(call: Call<'_>, image: Image<'_>, arrays: &mut Arrays) -> Outcome {
    let Arrays { lent, events, left } = arrays;
    let mut beside = Beside::of(call.more);
    if call.function.starts() {
        *left = [call.old; GUARDED];
    }
    beside.changes.make(left);
    *lent = *left;
    beside.changes.make(left);
    *events = [call.old; GUARDED];
    let answer = asked(call, image.bytes, beside, lent, events).unwrap_or(UNASKED);
    Outcome {
        answer,
        buffer: differs(lent, left, 0),
        events: differs(events, call.text, call.old),
        image: image.is_kept(),
    }
}
