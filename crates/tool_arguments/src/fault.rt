// What is wrong with a command line.
ghost use Rattle.std.specs.Prelude.{◌≡◌, None};
ghost use Rattle.tool_arguments.specs.declared.fault.Fault.TheVariants.{NoMemory};

use std::alloc::{AllocError, AllocFailed};
use std::fmt;

#[derive(Clone, Copy, Debug, PartialEq, Eq)]
pub enum Fault {
    NoCommand,
    NotACommand,
    NotAnOption,
    NoFile,
    TooMany,
    NoRecord,
    NotARecord,
    TooLong,
    NoNumber,
    NotANumber,
    NoAction,
    NotAnAction,
    NoStore,
    NotAStore,
    NotAValue,
    NoMemory,
}

impl fmt::Display for Fault {
    fn fmt<W: fmt::Write>(&self, f: &mut fmt::Formatter<W>) -> fmt::Result {
        f.write_str(match self {
            Fault::NoCommand => "a command is missing",
            Fault::NotACommand => "no such command",
            Fault::NotAnOption => "no option of this command",
            Fault::NoFile => "a file name is missing",
            Fault::TooMany => "one file too many",
            Fault::NoRecord => "annotate: which record?",
            Fault::NotARecord => "annotate: not a record's number",
            Fault::TooLong => "an argument is too long",
            Fault::NoNumber => "a number is missing",
            Fault::NotANumber => "not a number",
            Fault::NoAction => "step: start, run or show?",
            Fault::NotAnAction => "step: not start, run or show",
            Fault::NoStore => "step: which image, and which store?",
            Fault::NotAStore => "step: a store is a file",
            Fault::NotAValue => "step: not a value",
            Fault::NoMemory => "no memory is left",
        })
    }
}

// A fault, and the word that it is in, if it is in one.
#[derive(Clone, Copy, Debug)]
pub struct Wrong<'a> {
    pub fault: Fault,
    pub word: Option<&'a [u8]>,
}

impl<'a> Wrong<'a> {
    pub fn with(fault: Fault, word: &'a [u8]) -> Wrong<'a> {
        Wrong {
            fault,
            word: Some(word),
        }
    }
}

impl<'a> From<Fault> for Wrong<'a> {
    ghost from_gives = { λ fault wrong. wrong ≡ record { fault = fault; word = None } };

    fn from(fault: Fault) -> Wrong<'a> {
        Wrong { fault, word: None }
    }
}

impl<'a> From<AllocError> for Wrong<'a> {
    ghost from_gives = { λ _ wrong. wrong ≡ record { fault = NoMemory; word = None } };

    fn from(_error: AllocError) -> Wrong<'a> {
        Wrong::from(Fault::NoMemory)
    }
}

impl<'a, T: Drop> From<AllocFailed<T>> for Wrong<'a> {
    ghost from_gives = { λ _ wrong. wrong ≡ record { fault = NoMemory; word = None } };

    fn from(_error: AllocFailed<T>) -> Wrong<'a> {
        Wrong::from(Fault::NoMemory)
    }
}
