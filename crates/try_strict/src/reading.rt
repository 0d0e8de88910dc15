// What the strict reading makes of a line, or a function of `Text` of a part of one; the layout of a letter, and a spelling.
use std::alloc::{AllocError, Global};
use std::io::{self, Write};
use tool_listing::book::Book;
use try_building::build::{BuildError, build};
use try_building::layout::{Part, layout};
use try_building::lists::{Binding, Identifier, Ty};
use try_building::notation::notation;
use try_building::text::{Text, external};

// The turn of each text, and the ID of its declared types.
const TURN: u16 = 3;

const OTHER: u16 = 9;

fn text(bytes: &[u8]) -> &str {
    str::from_utf8(bytes).unwrap_or("(no text)")
}

fn variable(alloc: Global, variable: Identifier) -> Result<String, BuildError> {
    Ok(format!(in alloc; "{}'{}", variable.id, variable.name)?)
}

fn binding(alloc: Global, binding: Binding) -> Result<String, BuildError> {
    let mut said = variable(alloc, binding.variable)?;
    match binding.ty {
        Ty::I64 => write!(said, " {} of I64", binding.chirality)?,
        Ty::Declared(name) => write!(said, " {} of {}'{}", binding.chirality, name.id, name.name)?,
    }
    Ok(said)
}

fn pair(alloc: Global, text: &mut Text<'_>) -> Result<String, BuildError> {
    let pair = text.pair(OTHER)?;
    let mut said = binding(alloc, pair.target)?;
    let source = variable(alloc, pair.source)?;
    write!(said, " from {source}")?;
    Ok(said)
}

// What the function of this name reads.
fn part(alloc: Global, name: &[u8], rest: &mut Text<'_>) -> Result<String, BuildError> {
    match name {
        b"next" => Ok(format!(in alloc; "{:?}", rest.next())?),
        b"until" => Ok(format!(in alloc; "{}", text(rest.until(b';')?))?),
        b"inside" => Ok(format!(in alloc; "{}", text(rest.inside()?))?),
        b"id" => Ok(format!(in alloc; "{}", rest.id()?)?),
        b"number" => Ok(format!(in alloc; "{}", rest.number()?)?),
        b"byte" => Ok(format!(in alloc; "{}", rest.byte()?)?),
        b"beside" => Ok(format!(in alloc; "{}", rest.beside(b"5+").id()?)?),
        b"variable" => variable(alloc, rest.variable()?),
        b"external" => binding(alloc, external(rest.variable()?)),
        b"binding" => binding(alloc, rest.binding(OTHER)?),
        b"pair" => pair(alloc, rest),
        _ => Err(BuildError::Notation),
    }
}

// What is read of a text, and how much of it is left.
fn parts(alloc: Global, name: &[u8], rest: &[u8]) -> Result<String, BuildError> {
    let mut rest = Text::new(rest, TURN);
    let mut said = part(alloc, name, &mut rest)?;
    write!(said, ", {} left", rest.len())?;
    Ok(said)
}

fn image(alloc: Global, rest: &[u8]) -> Result<String, BuildError> {
    Ok(notation(alloc, &build(alloc, rest)?)?)
}

// The bytes of an image, each as two hexadecimal digits.
fn bytes(alloc: Global, rest: &[u8]) -> Result<String, BuildError> {
    let mut said = String::new(alloc);
    for byte in build(alloc, rest)?.iter() {
        write!(said, "{byte:02x}")?;
    }
    Ok(said)
}

// The kind of a letter's record, and how many parts stand behind it.
fn parts_of(alloc: Global, letters: &[u8]) -> Result<String, BuildError> {
    match letters.first().map(|letter| layout(*letter)) {
        Some([Part::Kind(kind), parts @ ..]) => {
            Ok(format!(in alloc; "kind {} and {} parts", *kind as u8, parts.len())?)
        }
        _ => Ok(format!(in alloc; "no kind")?),
    }
}

// The spelling of name 7 in a book of this text, which outlives the book and its places.
fn spelled<'a>(alloc: Global, text: &'a [u8]) -> Result<Option<&'a [u8]>, AllocError> {
    let mut places = vec![in alloc; 0; Book::NAMES]?;
    match Book::of(text, &mut places) {
        Ok(book) => Ok(book.spelling(7)),
        Err(_) => Ok(None),
    }
}

fn spelling(alloc: Global, rest: &[u8]) -> Result<String, BuildError> {
    match spelled(alloc, rest)? {
        Some(spelling) => Ok(format!(in alloc; "{}", text(spelling))?),
        None => Ok(format!(in alloc; "no spelling")?),
    }
}

// A line: a word, a space, and a text.
fn said(alloc: Global, line: &[u8]) -> Result<String, BuildError> {
    let mut words = Text::new(line, 0);
    let name = words.until(b' ')?;
    let (_, rest) = line.split_at_checked(name.len() + 1).unwrap_or((line, &[]));
    match name {
        b"build" => image(alloc, rest),
        b"bytes" => bytes(alloc, rest),
        b"layout" => parts_of(alloc, rest),
        b"spelling" => spelling(alloc, rest),
        _ => parts(alloc, name, rest),
    }
}

pub fn read(out: &mut impl Write, alloc: Global, line: &[u8]) -> io::Result<()> {
    match said(alloc, line) {
        Ok(said) => write!(out, "{said}"),
        Err(error) => write!(out, "{}", io::Error::from(error)),
    }
}
