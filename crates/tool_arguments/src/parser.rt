// The command line from all its words at once. (The command itself reads a `Line`, word by word.)
use crate::command::{Action, Command};
use crate::fault::{Fault, Wrong};
pub use crate::line::Line;
use crate::machine::Machine;
use crate::request::{Form, Input, Request, Step, Target, Task};
use crate::values::{Value, number};
use crate::word::Word;
use std::alloc::Global;
use tool_listing::line::View;
use tool_listing::names::Typing;

type Result<'a, T> = std::result::Result<T, Wrong<'a>>;

// What the next word is.
#[derive(Clone, Copy, Debug, PartialEq, Eq)]
enum Next {
    Anything,
    NoOption,
    Output,
    Names,
    Number,
    Value,
}

// What was asked for so far.
#[derive(Drop)]
struct Parser<'a> {
    command: Command,
    next: Next,
    image: Option<&'a [u8]>,
    output: Option<&'a [u8]>,
    names: Option<&'a [u8]>,
    store: Option<&'a [u8]>,
    // The record that annotate is asked for, the definition that a start is of, or how many steps a run makes. (One field: a command asks for
    // one of the three at most.)
    number: Option<usize>,
    values: Vec<Value>,
    view: View,
    form: Form,
    machine: Machine,
}

impl<'a> Parser<'a> {
    fn of(command: Command, alloc: Global) -> Parser<'a> {
        Parser {
            command,
            next: Next::Anything,
            image: None,
            output: None,
            names: None,
            store: None,
            number: None,
            values: Vec::new(alloc),
            view: View {
                uses: Typing::Bare,
                records: false,
                annotations: false,
            },
            form: Form::Text,
            machine: Machine::Source,
        }
    }

    // Is the record still to come?
    fn lacks_record(&self) -> bool {
        self.command == Command::Annotate && self.number.is_none()
    }

    // The number that a word is; this fault where it is none.
    fn count(&mut self, word: &'a [u8], fault: Fault) -> Result<'a, ()> {
        self.number = Some(number(word).ok_or(Wrong::with(fault, word))?);
        Ok(())
    }

    // Behind the first value there are only values.
    fn value(&mut self, word: &'a [u8]) -> Result<'a, ()> {
        let value = Value::try_from(word).map_err(|fault| Wrong::with(fault, word))?;
        self.values.push(value)?;
        self.next = Next::Value;
        Ok(())
    }

    // An argument of step behind the image.
    fn step_plain(&mut self, word: &'a [u8]) -> Result<'a, ()> {
        if self.store.is_none() {
            if matches!(word, b"-") {
                return Err(Wrong::with(Fault::NotAStore, word));
            }
            self.store = Some(word);
            return Ok(());
        }
        if self.command == Command::Step(Some(Action::Start)) {
            return self.value(word);
        }
        Err(Wrong::with(Fault::TooMany, word))
    }

    // An argument that is no option.
    fn plain(&mut self, word: &'a [u8]) -> Result<'a, ()> {
        if self.lacks_record() {
            return self.count(word, Fault::NotARecord);
        }
        if self.image.is_none() {
            self.image = Some(word);
            return Ok(());
        }
        if matches!(self.command, Command::Step(Some(_))) {
            return self.step_plain(word);
        }
        Err(Wrong::with(Fault::TooMany, word))
    }

    fn option(&mut self, word: &'a [u8]) -> Result<'a, ()> {
        match (self.command, word) {
            (_, b"--") => self.next = Next::NoOption,
            (_, b"--help") => self.command = Command::Help,
            (Command::Linearize | Command::Annotate | Command::Dump, b"-o") => {
                self.next = Next::Output;
            }
            (Command::Annotate, b"--raw") => self.form = Form::Bytes,
            (Command::Dump, b"--types") => self.view.uses = Typing::Typed,
            (Command::Dump, b"--records") => self.view.records = true,
            (Command::Dump, b"--annotations") => self.view.annotations = true,
            (Command::Dump, b"--names") => self.next = Next::Names,
            (Command::Step(Some(action)), _) => return self.step_option(action, word),
            _ => return Err(Wrong::with(Fault::NotAnOption, word)),
        }
        Ok(())
    }

    fn step_option(&mut self, action: Action, word: &'a [u8]) -> Result<'a, ()> {
        match (action, word) {
            (_, b"--linear") => self.machine = Machine::Linear,
            (Action::Start, b"--definition") => self.next = Next::Number,
            (Action::Run, b"--steps") => self.next = Next::Number,
            (Action::Run | Action::Show, b"--names") => self.next = Next::Names,
            _ => return Err(Wrong::with(Fault::NotAnOption, word)),
        }
        Ok(())
    }

    // An option, the word behind step, or another argument.
    fn anything(&mut self, word: &'a [u8]) -> Result<'a, ()> {
        if is_option(word) {
            return self.option(word);
        }
        if self.command == Command::Step(None) {
            let action = Action::try_from(word).map_err(|fault| Wrong::with(fault, word))?;
            self.command = Command::Step(Some(action));
            return Ok(());
        }
        self.plain(word)
    }

    // With the next word.
    fn take(&mut self, word: &'a [u8]) -> Result<'a, ()> {
        let next = self.next;
        if matches!(next, Next::Output | Next::Names | Next::Number) {
            self.next = Next::Anything;
        }
        match next {
            Next::Anything => return self.anything(word),
            Next::NoOption => return self.plain(word),
            Next::Output => self.output = Some(word),
            Next::Names => self.names = Some(word),
            Next::Number => return self.count(word, Fault::NotANumber),
            Next::Value => return self.value(word),
        }
        Ok(())
    }

    // Is an argument of an option missing at the end?
    fn check(&self) -> Result<'a, ()> {
        match self.next {
            Next::Output | Next::Names => Err(Wrong::from(Fault::NoFile)),
            Next::Number => Err(Wrong::from(Fault::NoNumber)),
            Next::Anything | Next::NoOption | Next::Value => Ok(()),
        }
    }

    fn step(self, action: Action) -> Result<'a, Task<'a>> {
        let machine = self.machine;
        let store = self.store.ok_or(Wrong::from(Fault::NoStore))?;
        let names = self.names.map(Input::from);
        let step = match action {
            Action::Start => Step::Start {
                definition: self.number.unwrap_or(0),
                values: self.values,
            },
            Action::Run => Step::Run {
                steps: self.number.unwrap_or(1),
                names,
            },
            Action::Show => Step::Show { names },
        };
        Ok(Task::Step {
            machine,
            store,
            step,
        })
    }

    // What all words together ask for.
    fn request(self) -> Result<'a, Request<'a>> {
        self.check()?;
        let image = self.image.map_or(Input::Standard, Input::from);
        let target = Target::from(self.output);
        let task = match self.command {
            Command::Help => return Ok(Request::Help),
            Command::Version => return Ok(Request::Version),
            Command::Read => Task::Read,
            Command::Check => Task::Check,
            Command::Linearize => Task::Linearize { target },
            Command::Annotate => Task::Annotate {
                record: self.number.ok_or(Wrong::from(Fault::NoRecord))?,
                form: self.form,
                target,
            },
            Command::Dump => Task::Dump {
                view: self.view,
                names: self.names.map(Input::from),
                target,
            },
            Command::Step(None) => return Err(Wrong::from(Fault::NoAction)),
            Command::Step(Some(action)) => self.step(action)?,
        };
        Ok(Request::Of(image, task))
    }
}

// The first word; one that is too long counts as empty.
fn command<'a>(word: &'a Word) -> Result<'a, Command> {
    let word = word.as_deref().unwrap_or(b"");
    Command::try_from(word).map_err(|fault| Wrong::with(fault, word))
}

// What the words behind the program's own name ask for.
pub fn parse<'a>(words: &'a [Word], alloc: Global) -> Result<'a, Request<'a>> {
    let (first, rest) = words.split_first().ok_or(Wrong::from(Fault::NoCommand))?;
    let mut parser = Parser::of(command(first)?, alloc);
    for word in rest {
        match word {
            Some(word) => parser.take(word.as_slice())?,
            None => return Err(Wrong::from(Fault::TooLong)),
        }
    }
    parser.request()
}

// A - alone is no option: it stands for standard input or output. With a digit behind it, it is a number.
fn is_option(word: &[u8]) -> bool {
    matches!(word, [b'-', next, ..] if !next.is_ascii_digit())
}
