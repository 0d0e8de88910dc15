// An image from a line of text, or what is wrong with the line. (`assemble` builds one from every line.)
ghost use Rattle.std.specs.Prelude.{◌≡◌};
ghost use Rattle.std.specs.IoError.{error_kind};
ghost use Rattle.try_building.specs.declared.build.BuildError.TheVariants.{NoMemory};
ghost use Rattle.try_building.specs.Signs.{build_error_kind};

pub use crate::assemble::{Built, LARGEST};
use crate::image::{Pair, body, header};
use crate::layout::{NAME, Part, layout};
use crate::lists::{Binding, Identifier, Ty};
use crate::text::{Text, external};
use std::alloc::{AllocError, AllocFailed, Global};
use std::io::{self, ErrorKind};

// Why a line is no image.
#[derive(Clone, Copy, Debug, PartialEq, Eq)]
pub enum BuildError {
    Notation,
    TooLarge,
    NoMemory,
}

impl From<AllocError> for BuildError {
    ghost from_gives = { λ _ error. error ≡ NoMemory };

    fn from(_: AllocError) -> BuildError {
        BuildError::NoMemory
    }
}

impl<T: Drop> From<AllocFailed<T>> for BuildError {
    ghost from_gives = { λ _ error. error ≡ NoMemory };

    fn from(_: AllocFailed<T>) -> BuildError {
        BuildError::NoMemory
    }
}

impl From<BuildError> for io::Error {
    ghost from_gives = { λ from error. error_kind error ≡ build_error_kind from };

    fn from(error: BuildError) -> io::Error {
        match error {
            BuildError::Notation => {
                io::Error::new(ErrorKind::InvalidData, "a line is not in the notation")
            }
            BuildError::TooLarge => io::Error::new(ErrorKind::InvalidData, "a number is too large"),
            BuildError::NoMemory => io::Error::from(ErrorKind::OutOfMemory),
        }
    }
}

// What is changed once the image is whole.
#[derive(Clone, Copy)]
enum Edit {
    Byte { at: u16, value: u8 },
    Cut(u16),
}

impl Edit {
    fn apply(self, image: &mut Vec<u8>) {
        match self {
            Edit::Byte { at, value } => {
                if let Some(byte) = image.get_mut(usize::from(at)) {
                    *byte = value;
                }
            }
            Edit::Cut(n) => image.truncate(usize::from(n)),
        }
    }
}

// The place of a record among the bytes of all of them.
#[derive(Clone, Copy)]
struct Span {
    from: usize,
    length: usize,
}

#[derive(Drop)]
struct Builder<'a> {
    alloc: Global,
    text: Text<'a>,
    records: Vec<u8>,
    spans: Vec<Span>,
    definitions: u16,
    edits: Vec<Edit>,
    // The ID of every label, tag and type.
    other: u16,
}

impl<'a> Builder<'a> {
    fn new(alloc: Global, text: Text<'a>) -> Builder<'a> {
        Builder {
            alloc,
            text,
            records: Vec::new(alloc),
            spans: Vec::new(alloc),
            definitions: 0,
            edits: Vec::new(alloc),
            other: 0,
        }
    }

    // All that the line has. Each turn reads a byte or more; turns are counted, here and below, since of a `while let` it would have to be
    // proved that it ends.
    fn line(&mut self) -> Result<(), BuildError> {
        for _ in 0..self.text.len() {
            match self.text.next() {
                Some(b'[') => self.group()?,
                Some(sign) => self.item(sign)?,
                None => break,
            }
        }
        Ok(())
    }

    // [..]5 is there five times.
    fn group(&mut self) -> Result<(), BuildError> {
        let inside = self.text.until(b']')?;
        let n = self.text.number()?;
        let behind = self.text;
        for turn in 0..n {
            self.text = Text::new(inside, turn);
            self.items()?;
        }
        self.text = behind;
        Ok(())
    }

    // All that stands in a group. (No call of `line`: a group has no groups in it, and of functions that call one another it would have to
    // be proved that they end.)
    fn items(&mut self) -> Result<(), BuildError> {
        for _ in 0..self.text.len() {
            match self.text.next() {
                Some(sign) => self.item(sign)?,
                None => break,
            }
        }
        Ok(())
    }

    fn item(&mut self, sign: u8) -> Result<(), BuildError> {
        match sign {
            b' ' => Ok(()),
            // #9 gives labels, tags and types the ID 9.
            b'#' => {
                self.other = self.text.number()?;
                Ok(())
            }
            b'!' => self.changed(),
            // %7 ends the image after 7 bytes.
            b'%' => {
                let n = self.text.number()?;
                Ok(self.edits.push(Edit::Cut(n))?)
            }
            b'y' => self.raw(),
            _ => self.record(sign),
        }
    }

    // !2 7 makes byte 2 of the image a 7.
    fn changed(&mut self) -> Result<(), BuildError> {
        let at = self.text.number()?;
        let value = self.text.byte()?;
        Ok(self.edits.push(Edit::Byte { at, value })?)
    }

    // The record of a letter.
    fn record(&mut self, letter: u8) -> Result<(), BuildError> {
        let from = self.records.len();
        if letter == b'x' {
            self.raw()?;
        } else {
            let parts = layout(letter);
            // (Two layouts begin with no kind, and are of no record.)
            if !matches!(parts.first(), Some(Part::Kind(_))) {
                return Err(BuildError::Notation);
            }
            for part in parts {
                self.part(*part)?;
            }
        }
        if letter == b'd' {
            self.definitions = self.definitions.saturating_add(1);
        }
        let length = self.records.len().saturating_sub(from);
        Ok(self.spans.push(Span { from, length })?)
    }

    fn part(&mut self, part: Part) -> Result<(), BuildError> {
        match part {
            Part::Kind(kind) => self.put(kind as u8),
            Part::Byte(byte) => self.put(byte),
            Part::Variable => {
                let variable = self.text.variable()?;
                self.put_identifier(variable)
            }
            Part::Count => {
                let n = self.text.byte()?;
                self.put(n)
            }
            Part::Bindings => self.bindings(),
            Part::Pairs => self.pairs(),
            Part::Named(name) => self.put_identifier(Identifier {
                name,
                id: self.other,
            }),
            Part::Space => Ok(()),
        }
    }

    // Bytes as they stand, each as two hexadecimal digits.
    fn raw(&mut self) -> Result<(), BuildError> {
        for _ in 0..self.text.len() {
            match self.text.hex_byte() {
                Some(byte) => self.put(byte)?,
                None => break,
            }
        }
        Ok(())
    }

    // A count and the bindings of a list.
    fn bindings(&mut self) -> Result<(), BuildError> {
        let mut list = Vec::new(self.alloc);
        for item in self.text.inside()?.split(|b| *b == b' ') {
            if !item.is_empty() {
                self.add_bindings(&mut list, self.text.beside(item))?;
            }
        }
        self.put_count(list.len())?;
        for binding in list.iter() {
            self.put_binding(*binding)?;
        }
        Ok(())
    }

    // A binding, a run of them as 3-7, or one again and again as 3*5.
    fn add_bindings(&self, list: &mut Vec<Binding>, item: Text<'a>) -> Result<(), BuildError> {
        let mut item = item;
        let first = item.binding(self.other)?;
        if item.eat(b'-') {
            let ids = first.variable.id..=item.id()?;
            list.extend(ids.map(|id| external(Identifier { name: NAME, id })))?;
        } else if item.eat(b'*') {
            let n = list.len() + usize::from(item.id()?);
            list.resize(n, first)?;
        } else {
            list.push(first)?;
        }
        Ok(())
    }

    // A count and the pairs of a list. (No one function for this and `bindings`: a run and a repetition are of bindings alone.)
    fn pairs(&mut self) -> Result<(), BuildError> {
        let mut list = Vec::new(self.alloc);
        for item in self.text.inside()?.split(|b| *b == b' ') {
            if !item.is_empty() {
                list.push(self.text.beside(item).pair(self.other)?)?;
            }
        }
        self.put_count(list.len())?;
        for pair in list.iter() {
            self.put_binding(pair.target)?;
            self.put_identifier(pair.source)?;
        }
        Ok(())
    }
}

impl Builder<'_> {
    fn put(&mut self, byte: u8) -> Result<(), BuildError> {
        Ok(self.records.push(byte)?)
    }

    fn put_half(&mut self, v: u16) -> Result<(), BuildError> {
        Ok(self.records.extend_from_slice(&v.to_le_bytes())?)
    }

    fn put_identifier(&mut self, identifier: Identifier) -> Result<(), BuildError> {
        self.put_half(identifier.name)?;
        self.put_half(identifier.id)
    }

    fn put_binding(&mut self, binding: Binding) -> Result<(), BuildError> {
        self.put_identifier(binding.variable)?;
        self.put(binding.chirality as u8)?;
        match binding.ty {
            Ty::I64 => {
                self.put(0)?;
                self.put_identifier(Identifier { name: 0, id: 0 })
            }
            Ty::Declared(name) => {
                self.put(1)?;
                self.put_identifier(name)
            }
        }
    }

    fn put_count(&mut self, n: usize) -> Result<(), BuildError> {
        self.put(u8::try_from(n).map_err(|_| BuildError::TooLarge)?)
    }

    // The pair of a record, in an image of n.
    fn pair(n: u16, span: Span) -> Result<Pair, BuildError> {
        let offset = body(n).saturating_add(span.from);
        Ok(Pair {
            offset: u16::try_from(offset).map_err(|_| BuildError::TooLarge)?,
            length: u16::try_from(span.length).map_err(|_| BuildError::TooLarge)?,
        })
    }

    // The whole image.
    fn finish(&self, max_id: u16) -> Result<Vec<u8>, BuildError> {
        let n = u16::try_from(self.spans.len()).map_err(|_| BuildError::TooLarge)?;
        let mut image = Vec::from_slice(self.alloc, &header(self.definitions, max_id, n))?;
        for span in self.spans.iter() {
            image.extend_from_slice(&Builder::pair(n, *span)?.bytes())?;
        }
        image.extend_from_slice(&self.records)?;
        for edit in self.edits.iter() {
            edit.apply(&mut image);
        }
        Ok(image)
    }
}

// The image of a line: max_id, and records.
pub fn build(alloc: Global, line: &[u8]) -> Result<Vec<u8>, BuildError> {
    let mut text = Text::new(line, 0);
    let max_id = text.number()?;
    let mut builder = Builder::new(alloc, text);
    builder.line()?;
    builder.finish(max_id)
}
