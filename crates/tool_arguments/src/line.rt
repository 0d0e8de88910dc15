// The command line, word by word.
use crate::command::{Action, Command};
use crate::fault::{Fault, Wrong};
use crate::machine::Machine;
use crate::request::{Form, Input, RequestRef, StepRef, Target, TaskRef};
use crate::values::{Value, Values, number};
use crate::word::WordBuffer;
use std::env::{Env, FillError};
use tool_listing::line::View;
use tool_listing::names::Typing;

// What the next word is.
#[derive(Clone, Copy, Debug, PartialEq, Eq)]
enum Next {
    Anything,
    NoOption,
    Output,
    Names,
    Number,
    Value,
}

// What was asked for so far. Of the words only those are kept that a request speaks of.
#[derive(Clone, Copy)]
struct Parser {
    command: Command,
    next: Next,
    image: Option<WordBuffer>,
    output: Option<WordBuffer>,
    names: Option<WordBuffer>,
    store: Option<WordBuffer>,
    // The record that annotate is asked for, the definition that a start is of, or how many steps a run makes. (One field: a command asks for
    // one of the three at most.)
    number: Option<usize>,
    values: Values,
    view: View,
    form: Form,
    machine: Machine,
}

// The file that a word names.
fn file(word: &Option<WordBuffer>) -> Option<&[u8]> {
    word.as_ref().map(|word| word.as_slice())
}

impl Parser {
    fn new() -> Parser {
        Parser {
            command: Command::Help,
            next: Next::Anything,
            image: None,
            output: None,
            names: None,
            store: None,
            number: None,
            values: Values::none(),
            view: View {
                uses: Typing::Bare,
                records: false,
                annotations: false,
            },
            form: Form::Text,
            machine: Machine::Source,
        }
    }

    // Is the record still to come?
    fn lacks_record(&self) -> bool {
        self.command == Command::Annotate && self.number.is_none()
    }

    // The number that a word is; this fault where it is none.
    fn count(&mut self, word: &WordBuffer, fault: Fault) -> Result<(), Fault> {
        self.number = Some(number(word.as_slice()).ok_or(fault)?);
        Ok(())
    }

    // Behind the first value there are only values.
    fn value(&mut self, word: &WordBuffer) -> Result<(), Fault> {
        self.values.push(Value::try_from(word.as_slice())?);
        self.next = Next::Value;
        Ok(())
    }

    // An argument of step behind the image.
    fn step_plain(&mut self, word: &WordBuffer) -> Result<(), Fault> {
        if self.store.is_none() {
            if matches!(word.as_slice(), b"-") {
                return Err(Fault::NotAStore);
            }
            self.store = Some(*word);
            return Ok(());
        }
        if self.command == Command::Step(Some(Action::Start)) {
            return self.value(word);
        }
        Err(Fault::TooMany)
    }

    // An argument that is no option.
    fn plain(&mut self, word: &WordBuffer) -> Result<(), Fault> {
        if self.lacks_record() {
            return self.count(word, Fault::NotARecord);
        }
        if self.image.is_none() {
            self.image = Some(*word);
            return Ok(());
        }
        if matches!(self.command, Command::Step(Some(_))) {
            return self.step_plain(word);
        }
        Err(Fault::TooMany)
    }

    fn option(&mut self, word: &WordBuffer) -> Result<(), Fault> {
        match (self.command, word.as_slice()) {
            (_, b"--") => self.next = Next::NoOption,
            (_, b"--help") => self.command = Command::Help,
            (Command::Linearize | Command::Annotate | Command::Dump, b"-o") => {
                self.next = Next::Output;
            }
            (Command::Annotate, b"--raw") => self.form = Form::Bytes,
            (Command::Dump, b"--types") => self.view.uses = Typing::Typed,
            (Command::Dump, b"--records") => self.view.records = true,
            (Command::Dump, b"--annotations") => self.view.annotations = true,
            (Command::Dump, b"--names") => self.next = Next::Names,
            (Command::Step(Some(action)), _) => return self.step_option(action, word),
            _ => return Err(Fault::NotAnOption),
        }
        Ok(())
    }

    fn step_option(&mut self, action: Action, word: &WordBuffer) -> Result<(), Fault> {
        match (action, word.as_slice()) {
            (_, b"--linear") => self.machine = Machine::Linear,
            (Action::Start, b"--definition") => self.next = Next::Number,
            (Action::Run, b"--steps") => self.next = Next::Number,
            (Action::Run | Action::Show, b"--names") => self.next = Next::Names,
            _ => return Err(Fault::NotAnOption),
        }
        Ok(())
    }

    // An option, the word behind step, or another argument.
    fn anything(&mut self, word: &WordBuffer) -> Result<(), Fault> {
        if is_option(word.as_slice()) {
            return self.option(word);
        }
        if self.command == Command::Step(None) {
            self.command = Command::Step(Some(Action::try_from(word.as_slice())?));
            return Ok(());
        }
        self.plain(word)
    }

    // With the next word.
    fn take(&mut self, word: &WordBuffer) -> Result<(), Fault> {
        let next = self.next;
        if matches!(next, Next::Output | Next::Names | Next::Number) {
            self.next = Next::Anything;
        }
        match next {
            Next::Anything => return self.anything(word),
            Next::NoOption => return self.plain(word),
            Next::Output => self.output = Some(*word),
            Next::Names => self.names = Some(*word),
            Next::Number => return self.count(word, Fault::NotANumber),
            Next::Value => return self.value(word),
        }
        Ok(())
    }

    // Is an argument of an option missing at the end?
    fn check(&self) -> Result<(), Fault> {
        match self.next {
            Next::Output | Next::Names => Err(Fault::NoFile),
            Next::Number => Err(Fault::NoNumber),
            Next::Anything | Next::NoOption | Next::Value => Ok(()),
        }
    }

    fn step(&self, action: Action) -> Result<TaskRef<'_>, Fault> {
        let machine = self.machine;
        let store = file(&self.store).ok_or(Fault::NoStore)?;
        let names = file(&self.names).map(Input::from);
        let step = match action {
            Action::Start => StepRef::Start {
                definition: self.number.unwrap_or(0),
                values: self.values.as_slice(),
            },
            Action::Run => StepRef::Run {
                steps: self.number.unwrap_or(1),
                names,
            },
            Action::Show => StepRef::Show { names },
        };
        Ok(TaskRef::Step {
            machine,
            store,
            step,
        })
    }

    // What all words together ask for.
    fn request(&self) -> Result<RequestRef<'_>, Fault> {
        self.check()?;
        let image = file(&self.image).map_or(Input::Standard, Input::from);
        let target = Target::from(file(&self.output));
        let task = match self.command {
            Command::Help => return Ok(RequestRef::Help),
            Command::Version => return Ok(RequestRef::Version),
            Command::Read => TaskRef::Read,
            Command::Check => TaskRef::Check,
            Command::Linearize => TaskRef::Linearize { target },
            Command::Annotate => TaskRef::Annotate {
                record: self.number.ok_or(Fault::NoRecord)?,
                form: self.form,
                target,
            },
            Command::Dump => TaskRef::Dump {
                view: self.view,
                names: file(&self.names).map(Input::from),
                target,
            },
            Command::Step(None) => return Err(Fault::NoAction),
            Command::Step(Some(action)) => self.step(action)?,
        };
        Ok(RequestRef::Of(image, task))
    }
}

// A command line while it is read: the word at hand, and what was asked for so far.
#[derive(Clone, Copy)]
pub struct Line {
    word: WordBuffer,
    parser: Parser,
}

impl Line {
    pub fn new() -> Line {
        Line {
            word: WordBuffer::empty(),
            parser: Parser::new(),
        }
    }

    // What is wrong with the word at hand.
    fn wrong(&self, fault: Fault) -> Wrong<'_> {
        Wrong::with(fault, self.word.as_slice())
    }

    // What the words behind the program's own name ask for; a first one that is too long counts as empty. (They are counted, since of a `loop`
    // it would have to be proved that it ends.)
    pub fn parse(&mut self, env: &impl Env) -> Result<RequestRef<'_>, Wrong<'_>> {
        if matches!(self.word.read(env, 1), Err(FillError::NotPresent)) {
            return Err(Wrong::from(Fault::NoCommand));
        }
        match Command::try_from(self.word.as_slice()) {
            Ok(command) => self.parser.command = command,
            Err(fault) => return Err(self.wrong(fault)),
        }
        for i in 2..usize::MAX {
            match self.word.read(env, i) {
                Ok(()) => {
                    if let Err(fault) = self.parser.take(&self.word) {
                        return Err(self.wrong(fault));
                    }
                }
                Err(FillError::TooLong) => return Err(Wrong::from(Fault::TooLong)),
                Err(FillError::NotPresent) => break,
            }
        }
        Ok(self.parser.request()?)
    }
}

// A - alone is no option: it stands for standard input or output. With a digit behind it, it is a number.
fn is_option(word: &[u8]) -> bool {
    matches!(word, [b'-', next, ..] if !next.is_ascii_digit())
}
