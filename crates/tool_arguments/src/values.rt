// The values that a start gives to parameters: a word for each, a signed integer, or outside: and a number up to 255.

use crate::fault::Fault;
use try_building::sort::Sort;

// The most digits of a number, and the greatest one.
const DIGITS: usize = 20;

const GREATEST: usize = 18446744073709551609;

// The text of a word that is a number of at most so many digits, perhaps behind a sign.
fn numeral<'a>(word: &'a [u8], digits: &[u8]) -> Option<&'a str> {
    if DIGITS < digits.len() || !digits.first()?.is_ascii_digit() {
        return None;
    }
    str::from_utf8(word).ok()
}

// The number that a word is.
pub fn number(word: &[u8]) -> Option<usize> {
    let n = numeral(word, word)?.parse::<usize>().ok()?;
    (n <= GREATEST).then_some(n)
}

#[derive(Clone, Copy, Debug, PartialEq, Eq)]
pub enum Value {
    Integer(i64),
    Outside(u8),
}

impl Value {
    // The bytes of a slot.
    pub const SLOT: usize = 16;

    // It as a slot: its sort, and in the last eight bytes what it is. (A method, as std's `to_le_bytes`, since a slot is no type but its bytes.)
    pub fn slot(self) -> [u8; Value::SLOT] {
        let (sort, bits) = match self {
            Value::Integer(n) => (Sort::Integer, n.cast_unsigned()),
            Value::Outside(n) => (Sort::Outside, u64::from(n)),
        };
        let mut slot = [0u8; Value::SLOT];
        slot[0] = sort as u8;
        slot[8..].copy_from_slice(&bits.to_le_bytes());
        slot
    }
}

fn outside(name: &[u8]) -> Option<Value> {
    let n = u8::try_from(number(name)?).ok()?;
    Some(Value::Outside(n))
}

fn integer(word: &[u8]) -> Option<Value> {
    let digits = word.strip_prefix(b"-").unwrap_or(word);
    let n = numeral(word, digits)?.parse::<i64>().ok()?;
    Some(Value::Integer(n))
}

impl TryFrom<&[u8]> for Value {
    type Error = Fault;

    fn try_from(word: &[u8]) -> Result<Value, Fault> {
        let value = match word.strip_prefix(b"outside:") {
            Some(name) => outside(name),
            None => integer(word),
        };
        value.ok_or(Fault::NotAValue)
    }
}

// The values of a start, as far as they are kept.
#[derive(Clone, Copy)]
pub struct Values {
    list: [Value; Values::MOST],
    length: usize,
}

impl Values {
    // A definition has at most 128 parameters.
    pub const MOST: usize = 256;

    pub fn none() -> Values {
        Values {
            list: [Value::Outside(0); Values::MOST],
            length: 0,
        }
    }

    // One that finds no room is left out: so many are refused as it is.
    pub fn push(&mut self, value: Value) {
        if let Some(place) = self.list.get_mut(self.length) {
            *place = value;
            self.length = self.length.saturating_add(1);
        }
    }

    pub fn as_slice(&self) -> &[Value] {
        self.list.get(..self.length).unwrap_or(&[])
    }
}
