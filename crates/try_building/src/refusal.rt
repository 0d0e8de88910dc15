// The questions of the library that may be answered no. Its own types of its answers are below its interface, whose functions return a number:
// this is what such a number says.
use std::fmt;

#[derive(Clone, Copy, Debug, PartialEq, Eq)]
pub enum Refusal {
    Size,
    LayoutNumber,
    Directory,
    RecordForm,
    Shape,
    Linearized,
    Limits,
    Binders,
    Scope,
    MaxId,
    Draws,
    Room,
    Place,
    Start,
    StepRoom,
    // Of a store, 14 is another thing than of a start: whoever asks of a store makes it of the other.
    State,
    // A number that is none of the others: the library does not answer it, and it is not taken for acceptance.
    Unknown(u32),
}

// The number 0, which is no refusal: by it the library accepts.
#[derive(Clone, Copy, Debug, PartialEq, Eq)]
pub struct NoRefusal;

impl TryFrom<u32> for Refusal {
    type Error = NoRefusal;

    fn try_from(number: u32) -> Result<Self, NoRefusal> {
        match number {
            0 => Err(NoRefusal),
            1 => Ok(Refusal::Size),
            2 => Ok(Refusal::LayoutNumber),
            3 => Ok(Refusal::Directory),
            4 => Ok(Refusal::RecordForm),
            5 => Ok(Refusal::Shape),
            6 => Ok(Refusal::Linearized),
            7 => Ok(Refusal::Limits),
            8 => Ok(Refusal::Binders),
            9 => Ok(Refusal::Scope),
            10 => Ok(Refusal::MaxId),
            11 => Ok(Refusal::Draws),
            12 => Ok(Refusal::Room),
            13 => Ok(Refusal::Place),
            14 => Ok(Refusal::Start),
            15 => Ok(Refusal::StepRoom),
            _ => Ok(Refusal::Unknown(number)),
        }
    }
}

impl Refusal {
    // The refusal of a call that answered this number, as `?` hands it on.
    pub fn check(number: u32) -> Result<(), Refusal> {
        match Refusal::try_from(number) {
            Ok(refusal) => Err(refusal),
            Err(NoRefusal) => Ok(()),
        }
    }
}

impl From<Refusal> for u32 {
    fn from(refusal: Refusal) -> u32 {
        match refusal {
            Refusal::Size => 1,
            Refusal::LayoutNumber => 2,
            Refusal::Directory => 3,
            Refusal::RecordForm => 4,
            Refusal::Shape => 5,
            Refusal::Linearized => 6,
            Refusal::Limits => 7,
            Refusal::Binders => 8,
            Refusal::Scope => 9,
            Refusal::MaxId => 10,
            Refusal::Draws => 11,
            Refusal::Room => 12,
            Refusal::Place => 13,
            Refusal::Start | Refusal::State => 14,
            Refusal::StepRoom => 15,
            Refusal::Unknown(number) => number,
        }
    }
}

impl fmt::Display for Refusal {
    fn fmt<W: fmt::Write>(&self, f: &mut fmt::Formatter<W>) -> fmt::Result {
        f.write_str(match self {
            Refusal::Size => "it has not 8 to 65,535 bytes",
            Refusal::LayoutNumber => "the layout number is not 1",
            Refusal::Directory => {
                "it has more than 4,000 records, or the pairs do not tile the bytes from 8 + 4 * N to the end"
            }
            Refusal::RecordForm => {
                "a record is not of kind 1 to 13 or not of exactly its length, a count is above 128, a code, a mark or a newline byte is out of range, or I64's four bytes are not zero"
            }
            Refusal::Shape => {
                "the records are not D definitions in pre-order, at most 128 statements deep"
            }
            Refusal::Linearized => "it has a Substitute or an environment",
            Refusal::Limits => {
                "it has more than 2,000 records, a depth above 64, a count above 32, or more than 64 bindings in scope, repeats counted"
            }
            Refusal::Binders => {
                "a binder takes an ID that is in scope there or earlier in its list"
            }
            Refusal::Scope => "a variable is used that is not in scope",
            Refusal::MaxId => "a binder's ID is above max_id",
            Refusal::Draws => "max_id plus the fresh IDs that the rules draw is above 65,535",
            Refusal::Room => {
                "the answer does not fit the buffer, or is an image of more than 65,535 bytes"
            }
            Refusal::Place => {
                "there is no such record, or it has no annotation: Let, Switch, Create, Literal, Op and PrintI64 have one"
            }
            Refusal::Start => {
                "there is no such definition, or the values do not match its parameters"
            }
            Refusal::StepRoom => {
                "the next step has no room in a store of 983,040 bytes, or its event none in 65,536 bytes"
            }
            Refusal::State => "it is not a state of this image",
            Refusal::Unknown(_) => "the number is not one of the library's",
        })
    }
}
