// An image in the notation of its lines. A record that the notation cannot say is there as x and its bytes.
use crate::codes::{Chirality, Kind, UnknownCode};
use crate::image::body;
use crate::layout::{NAME, Part, TYPE, layout};
use crate::place::plus;
use crate::sum::adler32;
use std::alloc::{AllocError, Global};

// The most bytes of an image whose records are told.
const TOLD: usize = 8192;

// Why a record is not in the notation.
#[derive(Clone, Copy)]
enum Unsaid {
    Otherwise,
    NoMemory,
}

impl From<AllocError> for Unsaid {
    fn from(_: AllocError) -> Unsaid {
        Unsaid::NoMemory
    }
}

// Fails where a record has something else than the notation says: `so` is a condition, as an assertion has.
fn only(so: bool) -> Result<(), Unsaid> {
    if so { Ok(()) } else { Err(Unsaid::Otherwise) }
}

// An image that is read from a place on, also where it is not well formed: past its end it has zero bytes. (No `Reader`, which ends there.)
#[derive(Clone, Copy)]
struct Padded<'a> {
    image: &'a [u8],
    at: usize,
}

impl<'a> Padded<'a> {
    fn new(image: &'a [u8], at: usize) -> Padded<'a> {
        Padded { image, at }
    }

    fn byte(&mut self) -> u8 {
        let byte = self.image.get(self.at).copied().unwrap_or(0);
        self.at = plus(self.at, 1);
        byte
    }

    fn half(&mut self) -> u16 {
        u16::from_le_bytes([self.byte(), self.byte()])
    }

    // The same, n bytes on.
    fn later(self, n: usize) -> Padded<'a> {
        Padded::new(self.image, plus(self.at, n))
    }
}

// A record at its beginning.
impl Padded<'_> {
    fn kind(mut self) -> Result<Kind, UnknownCode> {
        Kind::try_from(self.byte())
    }

    // Whether the mark that stands n bytes on is 1.
    fn is_marked(self, n: usize) -> bool {
        self.later(n).byte() == 1
    }

    // Its letter. Of Create, IfC and PrintI64 there are two each.
    fn letter(self) -> u8 {
        match self.kind() {
            Ok(Kind::Definition) => b'd',
            Ok(Kind::Substitute) => b'u',
            Ok(Kind::Call) => b'c',
            Ok(Kind::Let) => b't',
            Ok(Kind::Switch) => b's',
            Ok(Kind::Create) if self.is_marked(10) => b'e',
            Ok(Kind::Create) => b'n',
            Ok(Kind::Invoke) => b'v',
            Ok(Kind::Literal) => b'l',
            Ok(Kind::Op) => b'o',
            Ok(Kind::IfC) if self.is_marked(6) => b'j',
            Ok(Kind::IfC) => b'i',
            Ok(Kind::Clause) => b'k',
            Ok(Kind::PrintI64) if self.is_marked(1) => b'q',
            Ok(Kind::PrintI64) => b'p',
            Ok(Kind::Exit) => b'z',
            // These have no layout: what is said with them is empty.
            Err(UnknownCode(0)) => b'?',
            Err(_) => 0,
        }
    }

    // The ID of its first label, tag or type, if it has one.
    fn own(self) -> Option<u16> {
        let place = match self.kind() {
            Ok(Kind::Definition | Kind::Call | Kind::Clause) => 3,
            Ok(Kind::Invoke) => 7,
            Ok(Kind::Let | Kind::Switch | Kind::Create) => 8,
            Ok(_) | Err(UnknownCode(0)) => return None,
            // What is of no kind is taken to have one behind all those places.
            Err(_) => 16,
        };
        Some(self.later(place).half())
    }
}

// A record that is read and said.
#[derive(Drop)]
struct Saying<'a> {
    record: Padded<'a>,
    said: String,
    // The ID that labels, tags and types have.
    other: u16,
}

impl Saying<'_> {
    fn byte(&mut self) -> u8 {
        self.record.byte()
    }

    fn half(&mut self) -> u16 {
        self.record.half()
    }

    fn part(&mut self, part: Part) -> Result<(), Unsaid> {
        match part {
            Part::Kind(kind) => only(self.byte() == kind as u8),
            Part::Byte(byte) => only(self.byte() == byte),
            Part::Variable => self.variable(),
            Part::Count => {
                let n = self.byte();
                Ok(write!(self.said, "{n}")?)
            }
            Part::Bindings => self.bindings(),
            Part::Pairs => self.pairs(),
            Part::Named(name) => self.named(name),
            Part::Space => Ok(self.said.push_str(" ")?),
        }
    }

    // A label, a tag or a type of this name.
    fn named(&mut self, name: u16) -> Result<(), Unsaid> {
        only(self.half() == name)?;
        only(self.half() == self.other)
    }

    // A variable: its ID, and its name where that is another than usual.
    fn variable(&mut self) -> Result<(), Unsaid> {
        let name = self.half();
        let id = self.half();
        write!(self.said, "{id}")?;
        if name != NAME {
            write!(self.said, "'{name}")?;
        }
        Ok(())
    }

    fn binding(&mut self) -> Result<(), Unsaid> {
        self.variable()?;
        match Chirality::try_from(self.byte()) {
            Ok(Chirality::Producer) => self.declared("p"),
            Ok(Chirality::Consumer) => self.declared("c"),
            Ok(Chirality::External) => self.integer(),
            Err(_) => Err(Unsaid::Otherwise),
        }
    }

    // The type of a producer or a consumer, whose name is said where it is another than usual.
    fn declared(&mut self, letter: &str) -> Result<(), Unsaid> {
        self.said.push_str(letter)?;
        only(self.byte() == 1)?;
        let name = self.half();
        if name != TYPE {
            write!(self.said, "{name}")?;
        }
        only(self.half() == self.other)
    }

    // The type I64.
    fn integer(&mut self) -> Result<(), Unsaid> {
        only(self.byte() == 0)?;
        only(self.half() == 0)?;
        only(self.half() == 0)
    }

    fn space(&mut self, i: u8) -> Result<(), Unsaid> {
        if 0 < i {
            self.said.push_str(" ")?;
        }
        Ok(())
    }

    fn bindings(&mut self) -> Result<(), Unsaid> {
        self.said.push_str("(")?;
        for i in 0..self.byte() {
            self.space(i)?;
            self.binding()?;
        }
        Ok(self.said.push_str(")")?)
    }

    fn pairs(&mut self) -> Result<(), Unsaid> {
        self.said.push_str("(")?;
        for i in 0..self.byte() {
            self.space(i)?;
            self.binding()?;
            self.said.push_str("<")?;
            self.variable()?;
        }
        Ok(self.said.push_str(")")?)
    }
}

// A record in the notation, which ends at a place, and the ID of labels, tags and types in it, which is told where it is another than before.
fn say(
    alloc: Global,
    record: Padded<'_>,
    end: usize,
    before: u16,
) -> Result<(String, u16), Unsaid> {
    let letter = record.letter();
    let other = record.own().unwrap_or(before);
    let mut saying = Saying {
        record,
        said: String::new(alloc),
        other,
    };
    for part in layout(letter) {
        saying.part(*part)?;
    }
    only(saying.record.at == end)?;
    let mut text = String::new(alloc);
    if other != before {
        write!(text, "#{other} ")?;
    }
    write!(text, "{}{}", char::from(letter), saying.said)?;
    Ok((text, other))
}

// The bytes of a record.
fn say_bytes(text: &mut String, record: &[u8]) -> Result<(), AllocError> {
    text.push_str("x")?;
    for byte in record {
        write!(text, "{byte:02x}")?;
    }
    Ok(())
}

// max_id and the records; of a long image a sum of its bytes.
pub fn notation(alloc: Global, bytes: &[u8]) -> Result<String, AllocError> {
    if TOLD < bytes.len() {
        return format!(in alloc; "sum {:08x}", adler32(bytes));
    }
    let mut counts = Padded::new(bytes, 4);
    let max_id = counts.half();
    let mut text = format!(in alloc; "{max_id}")?;
    let mut other = 0;
    for k in 0..counts.half() {
        text.push_str(" ")?;
        let mut pair = Padded::new(bytes, body(k));
        let record = Padded::new(bytes, usize::from(pair.half()));
        let end = plus(record.at, usize::from(pair.half()));
        match say(alloc, record, end, other) {
            Ok((said, own)) => {
                text.push_str(said.as_str())?;
                other = own;
            }
            Err(Unsaid::Otherwise) => {
                let (front, _) = bytes.split_at_checked(end).unwrap_or((bytes, &[]));
                say_bytes(&mut text, front.get(record.at..).unwrap_or(&[]))?
            }
            Err(Unsaid::NoMemory) => return Err(AllocError),
        }
    }
    Ok(text)
}
