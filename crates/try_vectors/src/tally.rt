// How many calls agree.
use crate::call::{Call, Function};
use crate::replay::Outcome;
use std::alloc::{AllocError, Global};
use std::collections::BTreeMap;
use std::io::{self, Write};

// Counts end here.
const MOST: u32 = 1_000_000;

fn one_more(n: u32) -> u32 {
    n.saturating_add(1).min(MOST)
}

#[derive(Drop)]
pub struct Tally {
    // The calls that agree, by function and answer.
    agree: BTreeMap<(Function, u32), u32>,
    // The images before the one at hand, and its calls before the one at hand.
    images: u32,
    own: u32,
    // All calls.
    calls: u32,
    mismatches: u32,
}

// A call that does not agree, by its image and its place among the calls of that.
fn mismatch(
    out: &mut impl Write,
    image: u32,
    own: u32,
    call: Call<'_>,
    seen: Outcome,
) -> io::Result<()> {
    let function = call.function;
    write!(
        out,
        "image {image} call {own}: {function} answers {}",
        seen.answer
    )?;
    write!(out, ", expected {}", call.expected)?;
    if let Some(place) = seen.buffer {
        write!(out, ", other bytes in the buffer from {place}")?;
    }
    if let Some(place) = seen.events {
        write!(out, ", other bytes in the events from {place}")?;
    }
    if !seen.image {
        write!(out, ", other bytes in the image")?;
    }
    writeln!(out)
}

impl Tally {
    pub fn new(alloc: Global) -> Tally {
        Tally {
            agree: BTreeMap::new(alloc),
            images: 0,
            own: 0,
            calls: 0,
            mismatches: 0,
        }
    }

    // The image at hand is done.
    pub fn next(&mut self) {
        self.images = one_more(self.images);
        self.own = 0;
    }

    // With what the call at hand answered. One of no function, or whose expected number the library does not answer, is a mismatch.
    pub fn add(
        &mut self,
        out: &mut impl Write,
        call: Call<'_>,
        seen: Outcome,
    ) -> Result<(), AllocError> {
        let own = self.own;
        self.own = one_more(own);
        self.calls = one_more(self.calls);
        if call.is_known() && seen.agrees(call) {
            let count = self
                .agree
                .entry((call.function, call.expected.number))?
                .or_insert(0);
            *count = one_more(*count);
            return Ok(());
        }
        self.mismatches = one_more(self.mismatches);
        // (The run goes on where it cannot be written.)
        let _ = mismatch(out, self.images, own, call, seen);
        Ok(())
    }

    // A line for each function and answer of which there are calls, and the sums.
    pub fn show(&self, out: &mut impl Write) -> io::Result<()> {
        for ((function, answer), n) in self.agree.iter() {
            writeln!(out, "{function} {answer}: {n}")?;
        }
        writeln!(
            out,
            "{} images, {} calls, {} mismatches",
            self.images, self.calls, self.mismatches
        )
    }
}
