// Identifiers, types, bindings, and the lists of a record.
ghost use Rattle.std.specs.Iterator.{at_most};

use crate::codes::Chirality;
use crate::reader::Reader;
use std::marker::PhantomData;

// A mark of 0 or 1.
pub fn mark(reader: &mut Reader<'_>) -> Option<bool> {
    match reader.byte()? {
        0 => Some(false),
        1 => Some(true),
        _ => None,
    }
}

// A name and an ID: a variable, a label, a tag or a declared type.
#[derive(Clone, Copy, PartialEq, Eq)]
pub struct Identifier {
    pub name: u16,
    pub id: u16,
}

impl Identifier {
    pub fn read(reader: &mut Reader<'_>) -> Option<Identifier> {
        Some(Identifier {
            name: reader.half()?,
            id: reader.half()?,
        })
    }
}

#[derive(Clone, Copy, PartialEq, Eq)]
pub enum Ty {
    I64,
    Declared(Identifier),
}

impl Ty {
    pub fn read(reader: &mut Reader<'_>) -> Option<Ty> {
        let declared = mark(reader)?;
        let identifier = Identifier::read(reader)?;
        Some(if declared {
            Ty::Declared(identifier)
        } else {
            Ty::I64
        })
    }
}

#[derive(Clone, Copy, PartialEq, Eq)]
pub struct Binding {
    pub variable: Identifier,
    pub chirality: Chirality,
    pub ty: Ty,
}

// What a list has: its bytes.
pub trait Item: Sized {
    const SIZE: u8;

    fn read(reader: &mut Reader<'_>) -> Option<Self>;
}

impl Item for Binding {
    const SIZE: u8 = 10;

    fn read(reader: &mut Reader<'_>) -> Option<Binding> {
        Some(Binding {
            variable: Identifier::read(reader)?,
            chirality: Chirality::try_from(reader.byte()?).ok()?,
            ty: Ty::read(reader)?,
        })
    }
}

// A pair of a Substitute.
#[derive(Clone, Copy, PartialEq, Eq)]
pub struct Substitution {
    pub target: Binding,
    pub source: Identifier,
}

impl Item for Substitution {
    const SIZE: u8 = 14;

    fn read(reader: &mut Reader<'_>) -> Option<Substitution> {
        Some(Substitution {
            target: Binding::read(reader)?,
            source: Identifier::read(reader)?,
        })
    }
}

// The items of a list that are still to come.
#[derive(Clone, Copy)]
pub struct List<'a, T> {
    left: u8,
    rest: &'a [u8],
    items: PhantomData<T>,
}

pub type Bindings<'a> = List<'a, Binding>;

// The pairs of a Substitute.
pub type Substitutions<'a> = List<'a, Substitution>;

impl<'a, T: Item> List<'a, T> {
    pub fn empty() -> List<'a, T> {
        List {
            left: 0,
            rest: &[],
            items: PhantomData,
        }
    }

    pub fn read(reader: &mut Reader<'a>) -> Option<List<'a, T>> {
        let left = reader.byte()?;
        Some(List {
            left,
            rest: reader.take(usize::from(left) * usize::from(T::SIZE))?,
            items: PhantomData,
        })
    }

    pub fn len(self) -> usize {
        usize::from(self.left)
    }
}

impl<'a, T: Item> Iterator for List<'a, T> {
    type Item = T;

    ghost remaining = { λ s. at_most s.left };

    fn next(&mut self) -> Option<T> {
        if self.left == 0 {
            return None;
        }
        self.left -= 1;
        let first = self.rest.split_off(..usize::from(T::SIZE))?;
        T::read(&mut Reader::new(first))
    }
}
