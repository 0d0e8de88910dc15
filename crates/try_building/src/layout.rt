// What stands in a record, by its letter.
ghost use Rattle.try_building.specs.Parts.{KindLeads};

use crate::codes::{Comparison, Kind, Operator};

// The name of a variable that is written with none, and of a declared type in a list.
pub const NAME: u16 = 2;

pub const TYPE: u16 = 5;

// The names of a label, of the declared type of a statement, and of a tag.
const LABEL: Part = Part::Named(1);

const SORT: Part = Part::Named(TYPE);

const TAG: Part = Part::Named(6);

// The operator of an Op, and the comparison of an IfC.
const SUM: Part = Part::Byte(Operator::Sum as u8);

const EQUAL: Part = Part::Byte(Comparison::Equal as u8);

#[derive(Clone, Copy, PartialEq, Eq)]
pub enum Part {
    Kind(Kind),
    Byte(u8),
    Variable,
    Count,
    Bindings,
    Pairs,
    // A label, a tag or a declared type of this name.
    Named(u16),
    // Printed before a number, and no byte.
    Space,
}

// A Let and an Invoke.
fn cell_layout(letter: u8) -> &'static [Part]
    ensures { KindLeads result.now }
{
    use Part::{Bindings, Byte, Variable};
    match letter {
        b't' => &[
            Part::Kind(Kind::Let),
            Variable,
            Byte(1),
            SORT,
            TAG,
            Bindings,
        ],
        b'v' => &[
            Part::Kind(Kind::Invoke),
            Variable,
            TAG,
            Byte(1),
            SORT,
            Bindings,
        ],
        _ => &[],
    }
}

// A Switch, and a Create without an environment and with one.
fn clauses_layout(letter: u8) -> &'static [Part]
    ensures { KindLeads result.now }
{
    use Part::{Bindings, Byte, Count, Space, Variable};
    match letter {
        b's' => &[
            Part::Kind(Kind::Switch),
            Variable,
            Byte(1),
            SORT,
            Space,
            Count,
        ],
        b'n' => &[
            Part::Kind(Kind::Create),
            Variable,
            Byte(1),
            SORT,
            Byte(0),
            Space,
            Count,
        ],
        b'e' => &[
            Part::Kind(Kind::Create),
            Variable,
            Byte(1),
            SORT,
            Byte(1),
            Bindings,
            Count,
        ],
        _ => &[],
    }
}

// A Literal, an Op, and an IfC of two.
fn integers_layout(letter: u8) -> &'static [Part]
    ensures { KindLeads result.now }
{
    use Part::{Byte, Space, Variable};
    match letter {
        b'l' => &[
            Part::Kind(Kind::Literal),
            Byte(7),
            Byte(0),
            Byte(0),
            Byte(0),
            Byte(0),
            Byte(0),
            Byte(0),
            Byte(0),
            Variable,
        ],
        b'o' => &[
            Part::Kind(Kind::Op),
            Variable,
            SUM,
            Space,
            Variable,
            Space,
            Variable,
        ],
        b'j' => &[
            Part::Kind(Kind::IfC),
            EQUAL,
            Variable,
            Byte(1),
            Space,
            Variable,
        ],
        _ => &[],
    }
}

// What stands in the record of a letter; nothing where no record has it. (A mark, 0 or 1, is a byte: the builder writes what stands here and
// `Saying` compares it, byte by byte.)
pub fn layout(letter: u8) -> &'static [Part]
    ensures { KindLeads result.now }
{
    use Part::{Bindings, Byte, Pairs, Variable};
    match letter {
        b'd' => &[Part::Kind(Kind::Definition), LABEL, Bindings],
        b'u' => &[Part::Kind(Kind::Substitute), Pairs],
        b'c' => &[Part::Kind(Kind::Call), LABEL, Bindings],
        b't' | b'v' => cell_layout(letter),
        b's' | b'n' | b'e' => clauses_layout(letter),
        b'l' | b'o' | b'j' => integers_layout(letter),
        b'i' => &[Part::Kind(Kind::IfC), EQUAL, Variable, Byte(0)],
        b'k' => &[Part::Kind(Kind::Clause), TAG, Bindings],
        b'p' => &[Part::Kind(Kind::PrintI64), Byte(0), Variable],
        b'q' => &[Part::Kind(Kind::PrintI64), Byte(1), Variable],
        b'z' => &[Part::Kind(Kind::Exit), Variable],
        // What an IfC and a clause have behind their kind, and no kind.
        b'a' => &[EQUAL, Variable, Byte(0)],
        b'b' => &[TAG, Bindings],
        _ => &[],
    }
}
