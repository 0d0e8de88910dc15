// Why the command does not end with status 0, and what it says of that on standard error.
use crate::texts::USAGE;
use std::alloc::{AllocError, Global};
use std::io::{Error, Write};
use std::process::ExitCode;
use tool_arguments::fault::{Fault, Wrong};
use tool_arguments::request::Input;
use tool_finding::place::Place;
use try_building::refusal::Refusal;

// What a call of the system was about.
#[derive(Clone, Copy, Debug)]
pub enum Subject<'a> {
    Input(Input<'a>),
    File(&'a [u8]),
    // The file that is written in place of this one until it is whole.
    New(&'a [u8]),
    Output,
}

#[derive(Clone, Copy, Debug)]
pub enum Failure<'a> {
    // The command line is wrong.
    Wrong(Wrong<'a>),
    // The library refuses a file.
    Refused {
        file: Input<'a>,
        refusal: Refusal,
        place: Option<Place>,
    },
    // A call of the system failed.
    Call(Subject<'a>, Error),
    // An image is not written to a terminal unasked.
    Terminal,
    // A line of the spellings is none.
    FaultyLine(Input<'a>, usize),
    LongSpellings(Input<'a>),
    LargeStore(&'a [u8]),
    NoMemory,
    // All is said of it, or nothing is to be said.
    Silent,
}

impl<'a> From<Wrong<'a>> for Failure<'a> {
    fn from(wrong: Wrong<'a>) -> Failure<'a> {
        Failure::Wrong(wrong)
    }
}

impl<'a> From<AllocError> for Failure<'a> {
    fn from(_error: AllocError) -> Failure<'a> {
        Failure::NoMemory
    }
}

// No Display, here and below: the name of a file is bytes, and need be no text.
fn say_input<W: Write>(to: &mut W, input: Input<'_>) -> std::io::Result<()> {
    match input {
        Input::Standard => to.write_all(b"standard input"),
        Input::File(name) => to.write_all(name),
    }
}

fn say_subject<W: Write>(to: &mut W, subject: Subject<'_>) -> std::io::Result<()> {
    match subject {
        Subject::Input(input) => say_input(to, input),
        Subject::File(name) => to.write_all(name),
        Subject::New(name) => {
            to.write_all(name)?;
            to.write_all(b".new")
        }
        Subject::Output => to.write_all(b"the output cannot be written"),
    }
}

// The text of an error, without the number of the system's error.
fn reason(text: &str) -> &str {
    text.split_once(" (os error ")
        .map_or(text, |(reason, _)| reason)
}

// Why a call failed.
fn say_error<W: Write>(to: &mut W, error: Error, alloc: Global) -> std::io::Result<()> {
    match format!(in alloc; "{error}") {
        Ok(text) => to.write_all(reason(text.as_str()).as_bytes()),
        Err(_) => to.write_all(b"no memory is left"),
    }
}

fn say_wrong<W: Write>(to: &mut W, wrong: Wrong<'_>) -> std::io::Result<()> {
    let fault = wrong.fault;
    write!(to, "{fault}")?;
    if let Some(word) = wrong.word {
        to.write_all(b": ")?;
        to.write_all(word)?;
    }
    write!(to, "\nTry 'axcut --help'.")
}

fn say_refused<W: Write>(
    to: &mut W,
    file: Input<'_>,
    refusal: Refusal,
    place: Option<Place>,
) -> std::io::Result<()> {
    say_input(to, file)?;
    write!(to, ": refused {}: {refusal}", u32::from(refusal))?;
    match place {
        Some(place) => write!(to, " ({place})"),
        None => Ok(()),
    }
}

impl<'a> Failure<'a> {
    fn status(self) -> ExitCode {
        match self {
            Failure::Refused { .. } => ExitCode::from(1),
            // Any other is one of the command line or of the system.
            _ => ExitCode::from(2),
        }
    }

    fn say_reason<W: Write>(self, to: &mut W, alloc: Global) -> std::io::Result<()> {
        match self {
            Failure::Wrong(wrong) => say_wrong(to, wrong),
            Failure::Refused {
                file,
                refusal,
                place,
            } => say_refused(to, file, refusal, place),
            Failure::Call(subject, error) => {
                say_subject(to, subject)?;
                to.write_all(b": ")?;
                say_error(to, error, alloc)
            }
            Failure::Terminal => write!(
                to,
                "the output is an image: name a file with -o FILE, or -o - for this terminal"
            ),
            Failure::FaultyLine(names, line) => {
                say_input(to, names)?;
                write!(
                    to,
                    ": not a name number, a space and a spelling: line {line}"
                )
            }
            Failure::LongSpellings(names) => {
                say_input(to, names)?;
                write!(to, ": spellings of more than 262,143 bytes")
            }
            Failure::LargeStore(store) => {
                to.write_all(store)?;
                write!(to, ": a store of more than 983,040 bytes")
            }
            Failure::NoMemory => write!(to, "no memory is left"),
            Failure::Silent => Ok(()),
        }
    }

    // Says what is wrong, and answers the exit status.
    pub fn tell(self, rt: &HostRuntime) -> ExitCode {
        let _ = self.say(&mut rt.stderr(), rt.alloc());
        self.status()
    }

    // A call that failed: all is said of it here, before the file that it left unfinished is removed.
    pub fn told(rt: &HostRuntime, subject: Subject<'a>, error: Error) -> Failure<'a> {
        let _ = Failure::Call(subject, error).say(&mut rt.stderr(), rt.alloc());
        Failure::Silent
    }

    fn say<W: Write>(self, to: &mut W, alloc: Global) -> std::io::Result<()> {
        if matches!(self, Failure::Silent) {
            return Ok(());
        }
        if matches!(self, Failure::Wrong(wrong) if wrong.fault == Fault::NoCommand) {
            return write!(to, "{USAGE}");
        }
        write!(to, "axcut: ")?;
        self.say_reason(to, alloc)?;
        writeln!(to)
    }
}
