// What a slot holds, by its first byte. The library's own type of it is below its interface, which has a store's bytes alone.
use crate::codes::UnknownCode;

// An integer, a cell by the place of its own slot, an outside number; and the own slots of a Let's cell and of a Create's.
#[derive(Clone, Copy, Debug, PartialEq, Eq)]
pub enum Sort {
    Integer,
    Cell,
    Outside,
    LetCell,
    CreateCell,
}

impl TryFrom<u8> for Sort {
    type Error = UnknownCode;

    fn try_from(code: u8) -> Result<Self, UnknownCode> {
        match code {
            0 => Ok(Sort::Integer),
            1 => Ok(Sort::Cell),
            2 => Ok(Sort::Outside),
            3 => Ok(Sort::LetCell),
            4 => Ok(Sort::CreateCell),
            _ => Err(UnknownCode(code)),
        }
    }
}

impl Sort {
    // The sort of a byte. One that stands for none is taken for that of an outside number. (No From beside the TryFrom, which tells them apart.)
    pub fn of(code: u8) -> Sort {
        Sort::try_from(code).unwrap_or(Sort::Outside)
    }
}
