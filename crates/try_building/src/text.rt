// A line of text, read from the front; what is not in the notation is an error. (A `PaddedText` is read without one.)
ghost use Rattle.std.specs.Prelude.{◌≡◌};
ghost use Rattle.try_building.specs.declared.codes.Chirality.TheVariants.{External};
ghost use Rattle.try_building.specs.declared.lists.Ty.TheVariants.{I64};

use crate::build::BuildError;
use crate::codes::Chirality;
use crate::layout::{NAME, TYPE};
use crate::lists::{Binding, Identifier, Substitution, Ty};

#[derive(Clone, Copy)]
pub struct Text<'a> {
    rest: &'a [u8],
    // Which turn of a group this is.
    turn: u16,
}

impl<'a> Text<'a> {
    pub fn new(text: &'a [u8], turn: u16) -> Text<'a> {
        Text { rest: text, turn }
    }

    // Another text in the same turn.
    pub fn beside(self, text: &'a [u8]) -> Text<'a> {
        Text::new(text, self.turn)
    }

    // How many bytes are not read yet.
    pub fn len(self) -> usize {
        self.rest.len()
    }

    pub fn next(&mut self) -> Option<u8> {
        self.rest.split_off_first().copied()
    }

    // Reads this byte, where it is the next one. (A yes or no: the byte is gone past where it is there.)
    pub fn eat(&mut self, b: u8) -> bool {
        match self.rest.strip_prefix(&[b]) {
            Some(rest) => {
                self.rest = rest;
                true
            }
            None => false,
        }
    }

    // Reads up to the first such byte, and past it.
    pub fn until(&mut self, b: u8) -> Result<&'a [u8], BuildError> {
        let end = self.rest.iter().position(|other| *other == b);
        let (front, rest) = self
            .rest
            .split_at_checked(end.ok_or(BuildError::Notation)?)
            .ok_or(BuildError::Notation)?;
        self.rest = rest;
        self.next();
        Ok(front)
    }

    // What stands in parentheses.
    pub fn inside(&mut self) -> Result<&'a [u8], BuildError> {
        if self.eat(b'(') {
            self.until(b')')
        } else {
            Err(BuildError::Notation)
        }
    }

    // The byte of the two hexadecimal digits at hand, where there are such.
    pub fn hex_byte(&mut self) -> Option<u8> {
        let (digits, rest) = self.rest.split_at_checked(2)?;
        if !digits.iter().all(|b| b.is_ascii_hexdigit()) {
            return None;
        }
        self.rest = rest;
        u8::from_str_radix(str::from_utf8(digits).ok()?, 16).ok()
    }

    // Reads up to the first byte that is no digit.
    fn digits(&mut self) -> Option<&'a str> {
        let end = self.rest.iter().position(|b| !b.is_ascii_digit());
        let (digits, rest) = self.rest.split_at_checked(end.unwrap_or(self.len()))?;
        self.rest = rest;
        str::from_utf8(digits).ok()
    }

    // A decimal number, where there is one that fits.
    fn decimal(&mut self) -> Result<u16, BuildError> {
        let digits = self.digits().ok_or(BuildError::Notation)?;
        digits.parse().map_err(|_| BuildError::Notation)
    }

    // A number; with a + behind it, it is the sum with the turn.
    pub fn id(&mut self) -> Result<u16, BuildError> {
        let n = self.decimal()?;
        if self.eat(b'+') {
            return n.checked_add(self.turn).ok_or(BuildError::TooLarge);
        }
        Ok(n)
    }

    // The same, with a space behind it.
    pub fn number(&mut self) -> Result<u16, BuildError> {
        let n = self.id()?;
        self.eat(b' ');
        Ok(n)
    }

    // The same, of one byte.
    pub fn byte(&mut self) -> Result<u8, BuildError> {
        u8::try_from(self.number()?).map_err(|_| BuildError::TooLarge)
    }

    // An ID; '3 behind it is its name.
    fn identifier(&mut self) -> Result<Identifier, BuildError> {
        let id = self.id()?;
        let name = if self.eat(b'\'') {
            self.decimal()?
        } else {
            NAME
        };
        Ok(Identifier { name, id })
    }

    // A variable, with a space behind it.
    pub fn variable(&mut self) -> Result<Identifier, BuildError> {
        let variable = self.identifier()?;
        self.eat(b' ');
        Ok(variable)
    }

    // A binding: of I64, or with a p or a c and the type's name behind it, of a declared type with this ID.
    pub fn binding(&mut self, other: u16) -> Result<Binding, BuildError> {
        let variable = self.identifier()?;
        if self.eat(b'p') {
            self.declared(variable, Chirality::Producer, other)
        } else if self.eat(b'c') {
            self.declared(variable, Chirality::Consumer, other)
        } else {
            Ok(external(variable))
        }
    }

    fn declared(
        &mut self,
        variable: Identifier,
        chirality: Chirality,
        id: u16,
    ) -> Result<Binding, BuildError> {
        let digits = self.digits().ok_or(BuildError::Notation)?;
        let name = if digits.is_empty() {
            TYPE
        } else {
            digits.parse().map_err(|_| BuildError::Notation)?
        };
        Ok(Binding {
            variable,
            chirality,
            ty: Ty::Declared(Identifier { name, id }),
        })
    }

    // A pair as 1<2.
    pub fn pair(&mut self, other: u16) -> Result<Substitution, BuildError> {
        let target = self.binding(other)?;
        if !self.eat(b'<') {
            return Err(BuildError::Notation);
        }
        Ok(Substitution {
            target,
            source: self.identifier()?,
        })
    }
}

// A binding of I64.
pub fn external(variable: Identifier) -> Binding
    ensures { result ≡ record { variable = variable; chirality = External; ty = I64 } }
{
    Binding {
        variable,
        chirality: Chirality::External,
        ty: Ty::I64,
    }
}
