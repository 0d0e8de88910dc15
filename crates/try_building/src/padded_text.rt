// A text that is read at a place. Past its end it has zero bytes, so that reading never fails.
use crate::layout::NAME;
use crate::lists::Identifier;
use crate::place::{low, plus};

// The most digits of a number.
const DIGITS: usize = 20;

// A number takes another digit where it is below this.
const LAST: usize = 1844674407370955161;

// A number, and the name that stands behind it.
#[derive(Clone, Copy)]
pub struct Number {
    pub value: usize,
    pub name: u16,
}

impl Number {
    pub fn id(self) -> u16 {
        low(self.value)
    }

    pub fn identifier(self) -> Identifier {
        Identifier {
            name: self.name,
            id: self.id(),
        }
    }
}

// The value of a hexadecimal digit. Capitals are none.
fn hex(b: u8) -> Option<u8> {
    match b {
        b'0'..=b'9' => Some(b - b'0'),
        b'a'..=b'f' => Some(b - b'a' + 10),
        _ => None,
    }
}

#[derive(Clone, Copy)]
pub struct PaddedText<'a> {
    bytes: &'a [u8],
    place: usize,
    // Where the group begins, and which turn of it this is.
    group: usize,
    turn: usize,
}

impl<'a> PaddedText<'a> {
    pub fn new(bytes: &'a [u8], place: usize) -> PaddedText<'a> {
        PaddedText {
            bytes,
            place,
            group: 0,
            turn: 0,
        }
    }

    pub fn place(&self) -> usize {
        self.place
    }

    // What is not read yet.
    pub fn rest(&self) -> &'a [u8] {
        self.bytes.get(self.place..).unwrap_or(&[])
    }

    // What stands before the next such byte, or before the end.
    pub fn before(&self, b: u8) -> &'a [u8] {
        let rest = self.rest();
        let end = rest.iter().position(|other| *other == b);
        rest.get(..end.unwrap_or(rest.len())).unwrap_or(rest)
    }

    fn byte_at(&self, place: usize) -> u8 {
        self.bytes.get(place).copied().unwrap_or(0)
    }

    // The byte at hand.
    pub fn byte(&self) -> u8 {
        self.byte_at(self.place)
    }

    // Whether a line ends here, or the text.
    pub fn is_ended(&self) -> bool {
        matches!(self.byte(), 0 | b'\n')
    }

    // Whether a hexadecimal digit is at hand.
    pub fn is_at_digit(&self) -> bool {
        hex(self.byte()).is_some()
    }

    pub fn skip(&mut self, n: usize) {
        self.place = plus(self.place, n);
    }

    // Goes past the line.
    pub fn skip_line(&mut self) {
        self.skip(plus(self.before(b'\n').len(), 1));
    }

    // Reads this byte, where it is the one at hand. (A yes or no: the byte is gone past where it is there.)
    pub fn eat(&mut self, b: u8) -> bool {
        let is_there = self.byte() == b;
        if is_there {
            self.skip(1);
        }
        is_there
    }

    // The byte of the two hexadecimal digits at hand, where there are such.
    pub fn hex_byte(&mut self) -> Option<u8> {
        let upper = hex(self.byte())?;
        let lower = hex(self.byte_at(plus(self.place, 1)))?;
        self.skip(2);
        Some(upper << 4 | lower)
    }

    // The decimal number at hand, where there is one. Digits that are too many are left.
    pub fn decimal(&mut self) -> Option<usize> {
        let from = self.place;
        let mut value = 0;
        for _ in 0..DIGITS {
            let b = self.byte();
            match b {
                b'0'..=b'9' if value < LAST => value = value * 10 + usize::from(b - b'0'),
                _ => break,
            }
            self.skip(1);
        }
        if from < self.place { Some(value) } else { None }
    }

    // The number at hand, 0 where there is none, with a space behind it. With a + it is the sum with the turn; '3 behind it is its name.
    pub fn number(&mut self) -> Number {
        let value = self.decimal().unwrap_or(0);
        let number = if self.eat(b'+') {
            Number {
                value: plus(value, self.turn),
                name: NAME,
            }
        } else if self.eat(b'\'') {
            Number {
                value,
                name: low(self.decimal().unwrap_or(0)),
            }
        } else {
            Number { value, name: NAME }
        };
        self.eat(b' ');
        number
    }

    // A group begins here.
    pub fn open(&mut self) {
        self.group = self.place;
        self.turn = 0;
    }

    // The group ends before the number at hand, which says how often it is there. The first turn comes before it, so that it is there once
    // at least.
    pub fn close(&mut self) {
        let turns = self.number().value;
        let turn = plus(self.turn, 1);
        if turn < turns {
            self.place = self.group;
            self.turn = turn;
        } else {
            self.turn = 0;
        }
    }
}
