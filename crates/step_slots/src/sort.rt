// What a slot holds, by its first byte. (`as u8` gives the byte of a sort.)
ghost use Rattle.std.specs.Prelude.{◌≡◌, leb};
ghost use Rattle.step_slots.specs.Sorts.{sort_code, Decodes};

use syntax::codes::NoCode;

// An integer, a cell by the place of its own slot, an outside number; and the own slots of a Let's cell and of a Create's.
#[derive(Clone, Copy, Debug, PartialEq, Eq)]
pub enum Sort {
    Integer = 0,
    Cell = 1,
    Outside = 2,
    LetCell = 3,
    CreateCell = 4,
}

impl Sort {
    // Does a cell begin with it?
    pub fn begins_cell(self) -> bool
        ensures { result ≡ leb 3 (sort_code self) }
    {
        matches!(self, Sort::LetCell | Sort::CreateCell)
    }
}

impl TryFrom<u8> for Sort {
    type Error = NoCode;

    ghost try_from_gives = { Decodes };

    fn try_from(code: u8) -> Result<Self, NoCode> {
        match code {
            0 => Ok(Sort::Integer),
            1 => Ok(Sort::Cell),
            2 => Ok(Sort::Outside),
            3 => Ok(Sort::LetCell),
            4 => Ok(Sort::CreateCell),
            _ => Err(NoCode(code)),
        }
    }
}
