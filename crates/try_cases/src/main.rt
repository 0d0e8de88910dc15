// Reads cases from its input, a line each, and prints what the library answers: number, length and max_id. A line that begins with = names
// the function for the cases behind it: =read, =check or =linearize.
// Among those of the scope check a name with @3 16 asks for the annotation of record 3 with a buffer of 16 bytes, which is printed.
// Linearization is lent 65535 bytes, or 45 where the name has @45. Printed is also whether the buffer and the image are as they must be; and
// of what was written what reading answers, and the image in the notation of the input.
#![tactic(auto)]

use std::alloc::Global;
use std::io::{self, ErrorKind, Read, Write};
use try_building::answer::Answer;
use try_building::assemble::assemble;
use try_building::notation::notation;
use try_building::padded_text::PaddedText;
use try_building::place::plus;
use try_building::refusal::{NoRefusal, Refusal};

// How many bytes of the input are read, and how many lines of them.
const READ: u64 = 65536;

const LINES: u16 = 1000;

// The bytes that are lent where the name says nothing.
const LENT: usize = 65535;

// The buffer, of which the first bytes are lent; before the call it is full of marks.
const BUFFER: usize = 65600;

const MARK: u8 = 0xaa;

// The most bytes of an annotation that are printed.
const SHOWN: usize = 64;

#[derive(Clone, Copy, PartialEq, Eq)]
enum Function {
    Read,
    Check,
    Linearize,
    Annotate { record: usize },
    // Linearization, of which the answer alone is told. It is what cases ask for that no line with = stands before, or one with another letter.
    Answer,
}

// The function by the first letter that a line has behind its =.
impl From<u8> for Function {
    fn from(letter: u8) -> Function {
        match letter {
            b'r' => Function::Read,
            b'c' => Function::Check,
            b'l' => Function::Linearize,
            b'a' => Function::Annotate { record: 0 },
            _ => Function::Answer,
        }
    }
}

#[derive(Clone, Copy)]
struct Call {
    function: Function,
    lent: usize,
}

impl Call {
    // The call that the name of a case asks for, among the cases of a function.
    fn of(text: PaddedText<'_>, name: &[u8], function: Function) -> Call {
        match name.iter().position(|b| *b == b'@') {
            None => Call {
                function,
                lent: LENT,
            },
            Some(sign) => {
                let mut asked = text;
                asked.skip(plus(sign, 1));
                Call::with(asked, function)
            }
        }
    }

    // The call of what stands behind the @, where a number that isn't there is 0.
    fn with(asked: PaddedText<'_>, function: Function) -> Call {
        let mut asked = asked;
        let first = asked.decimal().unwrap_or(0);
        if function == Function::Linearize {
            return Call {
                function,
                lent: first,
            };
        }
        asked.skip(1);
        Call {
            function: Function::Annotate { record: first },
            lent: asked.decimal().unwrap_or(0),
        }
    }

    // `image` and `out`: one is read, the other written, as in the library's function.
    // Makes the call. Before it length and max_id hold numbers that no answer has. (`ask` of try_vectors and this: each takes a `Call` of its
    // own input.)
    fn make(self, image: &[u8], out: &mut [u8]) -> Answer {
        let mut length: usize = 99;
        let mut max_id: u32 = 99;
        let number = match self.function {
            Function::Read => axcut::axcut_read(image, &mut length, &mut max_id),
            Function::Check => axcut::axcut_check(image, &mut length, &mut max_id),
            Function::Linearize | Function::Answer => {
                axcut::axcut_linearize(image, out, &mut length, &mut max_id)
            }
            Function::Annotate { record } => {
                axcut::axcut_annotate(image, record, out, &mut length, &mut max_id)
            }
        };
        Answer {
            number,
            length,
            max_id: u64::from(max_id),
        }
    }
}

fn is_full(buffer: Option<&[u8]>, byte: u8) -> bool {
    buffer.is_some_and(|bytes| bytes.iter().all(|b| *b == byte))
}

// Whether the bytes from a place on are as they were.
fn rest(buffer: &[u8], from: usize) -> &'static str {
    if is_full(buffer.get(from..), MARK) {
        ", rest kept"
    } else {
        ", REST NOT KEPT"
    }
}

// After acceptance the bytes past the length stay; two refusals set all that was lent to zero; after another all stays.
fn left(out: &mut impl Write, answer: Answer, buffer: &[u8], lent: usize) -> io::Result<()> {
    match Refusal::try_from(answer.number) {
        Err(NoRefusal) => write!(out, "{}", rest(buffer, answer.length)),
        Ok(Refusal::Draws | Refusal::Room) => {
            let zero = is_full(buffer.get(..lent), 0);
            write!(out, "{}", if zero { ", zero" } else { ", NOT ZERO" })?;
            write!(out, "{}", rest(buffer, lent))
        }
        Ok(_) => {
            let kept = is_full(Some(buffer), MARK);
            write!(
                out,
                "{}",
                if kept { ", all kept" } else { ", NOT ALL KEPT" }
            )
        }
    }
}

// `out` and `alloc`, here and below: where it is written and where memory comes from; `left` and `annotated` take one, `build` the other.
// What reading answers for an image that was written, and its records.
fn read(out: &mut impl Write, alloc: Global, image: &[u8]) -> io::Result<()> {
    let call = Call {
        function: Function::Read,
        lent: 0,
    };
    write!(out, "; read: {}; ", call.make(image, &mut []))?;
    out.write_all(notation(alloc, image)?.as_bytes())
}

// The first bytes of what an annotation left.
fn annotated(out: &mut impl Write, buffer: &[u8]) -> io::Result<()> {
    write!(out, " :")?;
    for byte in buffer.iter().take(SHOWN) {
        write!(out, " {byte:02x}")?;
    }
    Ok(())
}

// What a call answers for an image, and what it left. Nothing where more is asked for than the buffer has.
fn ask(out: &mut impl Write, alloc: Global, call: Call, image: &[u8]) -> io::Result<()> {
    let mut buffer = [MARK; BUFFER];
    let Some(lent) = buffer.get_mut(..call.lent) else {
        return Ok(());
    };
    let before = Vec::from_slice(alloc, image)?;
    let answer = call.make(image, lent);
    write!(out, ": {answer}")?;
    match call.function {
        Function::Read | Function::Check | Function::Answer => {}
        Function::Annotate { .. } => annotated(out, lent)?,
        Function::Linearize => {
            left(out, answer, &buffer, call.lent)?;
            let kept = image == before.as_slice();
            write!(
                out,
                "{}",
                if kept {
                    ", image kept"
                } else {
                    ", IMAGE NOT KEPT"
                }
            )?;
            if Refusal::check(answer.number).is_ok() {
                let written = buffer.get(..answer.length).unwrap_or(&[]);
                read(out, alloc, written)?;
            }
        }
    }
    Ok(())
}

// The case at hand: its name, up to the next colon, and a line of text behind that. The place where the line ends.
fn case(
    out: &mut impl Write,
    alloc: Global,
    function: Function,
    text: PaddedText<'_>,
) -> io::Result<usize> {
    let name = text.before(b':');
    let mut line = text;
    line.skip(name.len());
    let built = assemble(alloc, line)?;
    out.write_all(name)?;
    if let Some(image) = &built.image {
        ask(out, alloc, Call::of(text, name, function), image)?;
    }
    out.write_all(b"\n")?;
    Ok(built.end)
}

// All cases. A line that begins with - is a remark. A case is written when it is whole, and where that fails the next one is tried.
fn cases(out: &mut impl Write, alloc: Global, input: &[u8]) -> io::Result<()> {
    let mut function = Function::Answer;
    let mut text = PaddedText::new(input, 0);
    let mut said = Vec::new(alloc);
    for _ in 0..LINES {
        if text.rest().is_empty() {
            break;
        }
        match text.byte() {
            b'-' => text.skip_line(),
            b'=' => {
                text.skip(1);
                function = Function::from(text.byte());
                text.skip_line();
            }
            _ => {
                said.clear();
                let end = case(&mut said, alloc, function, text)?;
                text = PaddedText::new(input, plus(end, 1));
                let _ = out.write_all(&said);
            }
        }
    }
    Ok(())
}

// What is read of the input. A read that fails ends it, as its end does; only want of memory is an error.
fn input(rt: &HostRuntime) -> io::Result<Vec<u8>> {
    let mut bytes = Vec::new(rt.alloc());
    match rt.reader().take(READ).read_to_end(&mut bytes) {
        Err(error) if error.kind() == ErrorKind::OutOfMemory => Err(error),
        _ => Ok(bytes),
    }
}

fn main(rt: HostRuntime) -> io::Result<()> {
    let bytes = input(&rt)?;
    cases(&mut rt.stdout(), rt.alloc(), &bytes)
}
