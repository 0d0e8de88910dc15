// The commands.
use crate::fault::Fault;

#[derive(Clone, Copy, Debug, PartialEq, Eq)]
pub enum Command {
    Read,
    Check,
    Linearize,
    Annotate,
    Dump,
    // What it does is said by the word behind it.
    Step(Option<Action>),
    Help,
    Version,
}

#[derive(Clone, Copy, Debug, PartialEq, Eq)]
pub enum Action {
    Start,
    Run,
    Show,
}

impl TryFrom<&[u8]> for Command {
    type Error = Fault;

    fn try_from(word: &[u8]) -> Result<Command, Fault> {
        match word {
            b"read" => Ok(Command::Read),
            b"check" => Ok(Command::Check),
            b"linearize" => Ok(Command::Linearize),
            b"annotate" => Ok(Command::Annotate),
            b"dump" => Ok(Command::Dump),
            b"step" => Ok(Command::Step(None)),
            b"--help" | b"-h" | b"help" => Ok(Command::Help),
            b"--version" => Ok(Command::Version),
            _ => Err(Fault::NotACommand),
        }
    }
}

impl TryFrom<&[u8]> for Action {
    type Error = Fault;

    fn try_from(word: &[u8]) -> Result<Action, Fault> {
        match word {
            b"start" => Ok(Action::Start),
            b"run" => Ok(Action::Run),
            b"show" => Ok(Action::Show),
            _ => Err(Fault::NotAnAction),
        }
    }
}
