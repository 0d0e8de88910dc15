// The command axcut, thin over the library's functions.
#![tactic(auto)]

mod failure;
mod files;
mod listing;
mod program;
mod spellings;
mod step;
mod stores;
mod texts;

use failure::{Failure, Subject};
use files::Opened;
use listing::listing;
use program::Program;
use std::io::Write;
use std::process::ExitCode;
use step::Stepping;
use texts::{USAGE, VERSION};
use tool_arguments::line::Line;
use tool_arguments::request::{Form, Input, RequestRef, Target, TaskRef};
use tool_listing::book::Book;
use tool_listing::line::View;
use tool_listing::output::Output;
use tool_listing::page::Page;
use try_building::image::Image;

// What read and check say of an image that is accepted.
fn accept<'a>(rt: &HostRuntime, max_id: u32) -> Result<(), Failure<'a>> {
    println!(rt; "accepted, max_id {max_id}").map_err(|e| Failure::Call(Subject::Output, e))
}

// `rt` and `program`, here and below: the system, for all that reads or writes, and the image; what asks the library takes no `rt`.
fn linearize<'a>(
    rt: &HostRuntime,
    program: &Program<'a>,
    target: Target<'a>,
) -> Result<(), Failure<'a>> {
    let mut out = io::large_buffer();
    let image = program.linearize(&mut out)?;
    files::open(rt, target)?.write(rt, image)
}

// Writes an annotation as text.
fn write_annotation(
    program: &Program<'_>,
    record: usize,
    output: Output,
    found: &[u8],
) -> std::io::Result<()> {
    let mut page = Page::new(output, Book::empty());
    let record = u16::try_from(record)
        .ok()
        .and_then(|k| Image::new(program.bytes()).record(k));
    if let Some(record) = record {
        page.annotation(record, found)?;
    }
    page.say("\n")?;
    page.flush()
}

fn annotate<'a>(
    rt: &HostRuntime,
    program: &Program<'a>,
    record: usize,
    form: Form,
    target: Target<'a>,
) -> Result<(), Failure<'a>> {
    let mut out = io::large_buffer();
    let found = program.annotate(record, &mut out)?;
    let opened = files::open(rt, target)?;
    match form {
        Form::Bytes => opened.write(rt, found),
        Form::Text => {
            let Opened { output, known } = opened;
            known.close(rt, write_annotation(program, record, output, found))
        }
    }
}

fn write_listing(
    program: &Program<'_>,
    view: View,
    max_id: u32,
    output: Output,
    book: Book<'_, '_>,
) -> std::io::Result<()> {
    let mut page = Page::new(output, book);
    listing(&mut page, program, view, max_id)
}

fn dump<'a>(
    rt: &HostRuntime,
    program: &Program<'a>,
    view: View,
    names: Option<Input<'a>>,
    target: Target<'a>,
) -> Result<(), Failure<'a>> {
    let max_id = program.read()?;
    if view.annotations {
        program.ask_first_seven()?;
    }
    let text = spellings::read(rt, names)?;
    let mut places = spellings::places(rt, names)?;
    let book = spellings::book(names, text.as_slice(), places.as_mut_slice())?;
    let Opened { output, known } = files::open(rt, target)?;
    known.close(rt, write_listing(program, view, max_id, output, book))
}

fn carry_out<'a>(
    rt: &HostRuntime,
    program: &Program<'a>,
    task: TaskRef<'a>,
) -> Result<(), Failure<'a>> {
    match task {
        TaskRef::Read => accept(rt, program.read()?),
        TaskRef::Check => accept(rt, program.check()?),
        TaskRef::Linearize { target } => linearize(rt, program, target),
        TaskRef::Annotate {
            record,
            form,
            target,
        } => annotate(rt, program, record, form, target),
        TaskRef::Dump {
            view,
            names,
            target,
        } => dump(rt, program, view, names, target),
        TaskRef::Step {
            machine,
            store,
            step,
        } => Stepping::new(program, machine, store).carry_out(rt, step),
    }
}

fn run<'a>(rt: &HostRuntime, line: &'a mut Line) -> Result<(), Failure<'a>> {
    match line.parse(rt)? {
        RequestRef::Help => {
            let _ = print!(rt; "{USAGE}");
            Ok(())
        }
        RequestRef::Version => {
            let _ = print!(rt; "{VERSION}");
            Ok(())
        }
        RequestRef::Of(file, task) => carry_out(rt, &Program::take(rt, file)?, task),
    }
}

fn main(rt: HostRuntime) -> ExitCode {
    match run(&rt, &mut Line::new()) {
        Ok(()) => ExitCode::SUCCESS,
        Err(failure) => failure.tell(&rt),
    }
}
