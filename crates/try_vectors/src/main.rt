// Reads the oracle's answers from its input, makes the same calls, and prints each call that answers something else, and how many
// calls answer the same, by function and number. oracle/vectors/src/lib.rs says the form of the input.
#![tactic(auto)]

mod call;
mod input;
mod replay;
mod steppers;
mod tally;
mod trouble;

use call::{Call, Function};
use input::{byte, word};
use replay::{Arrays, GUARDED, Image, replay};
use std::io::{self, BufReader, LineWriter, Read, Write};
use steppers::replay_steps;
use tally::Tally;
use trouble::Trouble;
use try_building::build::LARGEST;

// What an image and its calls are read into, one after the other.
#[derive(Drop)]
struct Space {
    image: [u8; LARGEST],
    kept: [u8; LARGEST],
    // What stands behind a call's numbers.
    behind: [u8; LARGEST],
    arrays: Arrays,
}

impl Space {
    fn new() -> Space {
        Space {
            image: [0; LARGEST],
            kept: [0; LARGEST],
            behind: [0; LARGEST],
            arrays: Arrays::new(),
        }
    }
}

// `input` and `out`, here and below: what is read and where it is written.
// A call: it is read to `behind`, made again, and compared.
fn compare(
    input: &mut impl Read,
    out: &mut impl Write,
    image: Image<'_>,
    behind: &mut [u8],
    arrays: &mut Arrays,
    tally: &mut Tally,
) -> Result<(), Trouble> {
    let call = Call::read(input, behind)?;
    let seen = match call.function {
        Function::Read | Function::Check | Function::Linearize | Function::Annotate => {
            replay(call, image, &mut arrays.lent)
        }
        Function::SourceStart
        | Function::SourceStep
        | Function::LinearStart
        | Function::LinearStep
        | Function::Unknown(_) => replay_steps(call, image, arrays),
    };
    Ok(tally.add(out, call, seen)?)
}

// An image and its calls. (It is counted as done where its last call is broken, and not where one before is.)
fn image(
    input: &mut impl Read,
    out: &mut impl Write,
    space: &mut Space,
    tally: &mut Tally,
) -> Result<(), Trouble> {
    let n = word(input)? as usize;
    let Space {
        image,
        kept,
        behind,
        arrays,
    } = space;
    let image = image.get_mut(..n).ok_or(Trouble::Broken)?;
    let kept = kept.get_mut(..n).ok_or(Trouble::Broken)?;
    input.read_exact(image)?;
    kept.copy_from_slice(image);
    arrays.left = [0; GUARDED];
    let image = Image { bytes: image, kept };
    let mut ended = Ok(());
    for _ in 0..byte(input)? {
        ended?;
        ended = compare(input, out, image, behind, arrays, tally);
    }
    tally.next();
    ended
}

// A list of images: their count, and the images.
fn images(
    input: &mut impl Read,
    out: &mut impl Write,
    space: &mut Space,
    tally: &mut Tally,
) -> Result<(), Trouble> {
    for _ in 0..word(input)? {
        image(input, out, space, tally)?;
    }
    Ok(())
}

// The whole input: two lists of images, and nothing behind them.
fn all(
    input: &mut impl Read,
    out: &mut impl Write,
    space: &mut Space,
    tally: &mut Tally,
) -> Result<(), Trouble> {
    images(input, out, space, tally)?;
    images(input, out, space, tally)?;
    match byte(input) {
        Ok(_) => Err(Trouble::Broken),
        Err(_) => Ok(()),
    }
}

// What cannot be written is left out, and is no failure.
fn main(rt: HostRuntime) -> io::Result<()> {
    let alloc = rt.alloc();
    let mut input = BufReader::new(alloc, rt.reader())?;
    let mut out = LineWriter::new(alloc, rt.stdout())?;
    let mut space = Space::new();
    let mut tally = Tally::new(alloc);
    let ended = all(&mut input, &mut out, &mut space, &mut tally);
    let _ = tally.show(&mut out);
    match ended {
        Ok(()) => {}
        Err(Trouble::Broken) => {
            let _ = writeln!(out, "the input is broken");
        }
        Err(Trouble::Memory(error)) => return Err(io::Error::from(error)),
    }
    Ok(())
}
