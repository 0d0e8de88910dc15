// A call of the input, and the answer that is expected.
use crate::input::{byte, double, half, word};
use crate::trouble::Trouble;
use std::fmt;
use std::io::Read;
use try_building::answer::Answer;
use try_building::refusal::Refusal;

#[derive(Clone, Copy, PartialEq, Eq, PartialOrd, Ord)]
pub enum Function {
    Read,
    Check,
    Linearize,
    Annotate,
    SourceStart,
    SourceStep,
    LinearStart,
    LinearStep,
    // A code that is none of the others: it is asked for as LinearStep, and no answer is the expected one.
    Unknown(u8),
}

impl Function {
    pub const ALL: [Function; 8] = [
        Function::Read,
        Function::Check,
        Function::Linearize,
        Function::Annotate,
        Function::SourceStart,
        Function::SourceStep,
        Function::LinearStart,
        Function::LinearStep,
    ];

    // Does it start a stepper?
    pub fn starts(self) -> bool {
        self == Function::SourceStart || self == Function::LinearStart
    }
}

impl From<u8> for Function {
    fn from(code: u8) -> Function {
        Function::ALL
            .get(usize::from(code))
            .copied()
            .unwrap_or(Function::Unknown(code))
    }
}

impl fmt::Display for Function {
    fn fmt<W: fmt::Write>(&self, f: &mut fmt::Formatter<W>) -> fmt::Result {
        f.write_str(match self {
            Function::Read => "axcut_read",
            Function::Check => "axcut_check",
            Function::Linearize => "axcut_linearize",
            Function::Annotate => "axcut_annotate",
            Function::SourceStart => "axcut_source_start",
            Function::SourceStep => "axcut_source_step",
            Function::LinearStart => "axcut_linear_start",
            Function::LinearStep | Function::Unknown(_) => "axcut_linear_step",
        })
    }
}

#[derive(Clone, Copy)]
pub struct Call<'a> {
    pub function: Function,
    // The record that is annotated, the definition that is started, or the steps that are asked for. (One number, as the input has it for
    // every function; `ask` takes it for what its function needs.)
    pub index: u64,
    // The length of the lent buffer, of a stepper that of the store.
    pub room: usize,
    // The byte that the buffer, of a stepper the event buffer and the store of a start, is full of before the call.
    pub old: u8,
    pub expected: Answer,
    // What the buffer, of a stepper the event buffer, begins with after the call.
    pub text: &'a [u8],
    // What a stepper has beside: its values, and the changes of its store.
    pub more: &'a [u8],
}

impl<'a> Call<'a> {
    // What stands behind a call's numbers is read to the front of `space`, and broken where that has no room for it.
    pub fn read(input: &mut impl Read, space: &'a mut [u8]) -> Result<Call<'a>, Trouble> {
        let function = Function::from(byte(input)?);
        let index = double(input)?;
        let room = word(input)? as usize;
        let old = byte(input)?;
        let number = u32::from(byte(input)?);
        let length = usize::from(half(input)?);
        let more = usize::from(half(input)?);
        let max_id = u64::from(word(input)?);
        let behind = space.get_mut(..length + more).ok_or(Trouble::Broken)?;
        input.read_exact(behind)?;
        let (text, more) = behind.split_at_checked(length).ok_or(Trouble::Broken)?;
        Ok(Call {
            function,
            index,
            room,
            old,
            expected: Answer {
                number,
                length,
                max_id,
            },
            text,
            more,
        })
    }

    // What stands past the length: two refusals set the whole buffer to zero, the other answers leave it.
    pub fn rest(self) -> u8 {
        match Refusal::try_from(self.expected.number) {
            Ok(Refusal::Draws | Refusal::Room) => 0,
            Ok(_) | Err(_) => self.old,
        }
    }

    // Is it of a function of the library, and the expected number one that the library answers?
    pub fn is_known(self) -> bool {
        !matches!(self.function, Function::Unknown(_))
            && !matches!(
                Refusal::try_from(self.expected.number),
                Ok(Refusal::Unknown(_))
            )
    }
}
