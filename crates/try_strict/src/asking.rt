// What the words of a command line ask for.
use std::alloc::Global;
use std::io::{self, Write};
use tool_arguments::fault::Wrong;
use tool_arguments::parser::parse;
use tool_arguments::request::{Input, Request, Step, Target, Task};
use tool_arguments::values::Value;
use tool_arguments::word::Word;

fn text(bytes: &[u8]) -> &str {
    str::from_utf8(bytes).unwrap_or("(no text)")
}

fn input<'a>(input: Input<'a>) -> &'a str {
    match input {
        Input::Standard => "standard input",
        Input::File(name) => text(name),
    }
}

fn target<'a>(target: Target<'a>) -> &'a str {
    match target {
        Target::Unasked => "no file",
        Target::Standard => "standard output",
        Target::File(name) => text(name),
    }
}

fn names(out: &mut impl Write, names: Option<Input<'_>>) -> io::Result<()> {
    match names {
        None => out.write_all(b", no names"),
        Some(names) => write!(out, ", names from {}", input(names)),
    }
}

fn value(out: &mut impl Write, value: Value) -> io::Result<()> {
    match value {
        Value::Integer(n) => write!(out, " {n}"),
        Value::Outside(n) => write!(out, " outside:{n}"),
    }
}

fn step(out: &mut impl Write, step: Step<'_>) -> io::Result<()> {
    match step {
        Step::Start { definition, values } => {
            write!(out, "start {definition} with {} values:", values.len())?;
            for one in values.iter() {
                value(out, *one)?;
            }
            Ok(())
        }
        Step::Run { steps, names: book } => {
            write!(out, "run {steps}")?;
            names(out, book)
        }
        Step::Show { names: book } => {
            write!(out, "show")?;
            names(out, book)
        }
    }
}

fn task(out: &mut impl Write, task: Task<'_>) -> io::Result<()> {
    match task {
        Task::Read => write!(out, "read"),
        Task::Check => write!(out, "check"),
        Task::Linearize { target: file } => write!(out, "linearize to {}", target(file)),
        Task::Annotate {
            record,
            form,
            target: file,
        } => write!(out, "annotate {record} as {form:?} to {}", target(file)),
        Task::Dump {
            view,
            names: book,
            target: file,
        } => {
            let (uses, records, annotations) = (view.uses, view.records, view.annotations);
            write!(
                out,
                "dump {uses:?}, records {records}, annotations {annotations}, to {}",
                target(file)
            )?;
            names(out, book)
        }
        Task::Step {
            machine,
            store,
            step: one,
        } => {
            write!(out, "step {machine:?} {}: ", text(store))?;
            step(out, one)
        }
    }
}

fn wrong(out: &mut impl Write, wrong: Wrong<'_>) -> io::Result<()> {
    match wrong.word {
        None => write!(out, "{}", wrong.fault),
        Some(word) => write!(out, "{}: {}", wrong.fault, text(word)),
    }
}

pub fn ask(out: &mut impl Write, alloc: Global, words: &[Word]) -> io::Result<()> {
    match parse(words, alloc) {
        Ok(Request::Help) => write!(out, "help"),
        Ok(Request::Version) => write!(out, "version"),
        Ok(Request::Of(image, asked)) => {
            task(out, asked)?;
            write!(out, " of {}", input(image))
        }
        Err(error) => wrong(out, error),
    }
}

// The words that spaces stand before; * is one that is too long.
pub fn split(out: &mut impl Write, alloc: Global, line: &[u8]) -> io::Result<()> {
    let mut words = Vec::new(alloc);
    for word in line.split(|b| *b == b' ').skip(1) {
        match word {
            b"*" => words.push(None)?,
            _ => words.push(Some(word.to_vec(alloc)?))?,
        }
    }
    ask(out, alloc, &words)
}
