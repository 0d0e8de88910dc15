// Values as text.
use std::fmt;
use try_building::sort::Sort;

// A cell is shown by its number.
#[derive(Clone, Copy, Debug, PartialEq, Eq)]
pub enum Value {
    Integer(i64),
    Cell(u64),
    Outside(u64),
}

impl Value {
    // The value of a sort with these bits. No value has the sort of a cell's own slot.
    pub fn of(sort: Sort, bits: u64) -> Value {
        match sort {
            Sort::Integer => Value::Integer(bits.cast_signed()),
            Sort::Cell => Value::Cell(bits),
            Sort::Outside | Sort::LetCell | Sort::CreateCell => Value::Outside(bits),
        }
    }
}

impl fmt::Display for Value {
    fn fmt<W: fmt::Write>(&self, f: &mut fmt::Formatter<W>) -> fmt::Result {
        match *self {
            Value::Integer(n) => write!(f, "{n}"),
            Value::Cell(n) => write!(f, "cell:{n}"),
            Value::Outside(n) => write!(f, "outside:{n}"),
        }
    }
}
