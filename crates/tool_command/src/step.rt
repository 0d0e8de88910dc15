// `axcut step`: starts, runs and states, with the store in a file.
use crate::failure::{Failure, Subject};
use crate::program::Program;
use crate::{files, spellings, stores};
use std::io::Write;
use tool_arguments::machine::Machine;
use tool_arguments::request::{Input, StepRef};
use tool_arguments::values::Value;
use tool_listing::book::Book;
use tool_listing::output::Output;
use tool_listing::page::Page;
use tool_steps::run::{Ran, run};
use tool_steps::standing::Standing;
use tool_steps::store::{BYTES, Store};
use tool_steps::{machine, state};
use try_building::refusal::Refusal;

// Values as slots, in this buffer.
fn slots<'b>(values: &[Value], buffer: &'b mut [u8]) -> &'b [u8] {
    let mut end: usize = 0;
    for value in values {
        if let Some(slot) = buffer.get_mut(end..end.saturating_add(Value::SLOT)) {
            slot.copy_from_slice(&value.slot());
            end = end.saturating_add(Value::SLOT);
        }
    }
    buffer.get(..end).unwrap_or(&[])
}

// A store in its file, and the machine whose states it has.
#[derive(Clone, Copy)]
pub struct Stepping<'a, 'p> {
    program: &'p Program<'a>,
    machine: Machine,
    file: &'a [u8],
}

impl<'a, 'p> Stepping<'a, 'p> {
    pub fn new(program: &'p Program<'a>, machine: Machine, file: &'a [u8]) -> Stepping<'a, 'p> {
        Stepping {
            program,
            machine,
            file,
        }
    }

    pub fn carry_out(self, rt: &HostRuntime, step: StepRef<'a>) -> Result<(), Failure<'a>> {
        match step {
            StepRef::Start { definition, values } => self.start(rt, definition, values),
            StepRef::Run { steps, names } => {
                let text = spellings::read(rt, names)?;
                let mut places = spellings::places(rt, names)?;
                let book = spellings::book(names, text.as_slice(), places.as_mut_slice())?;
                self.run(rt, book, steps as u64)
            }
            StepRef::Show { names } => {
                let text = spellings::read(rt, names)?;
                let mut places = spellings::places(rt, names)?;
                let book = spellings::book(names, text.as_slice(), places.as_mut_slice())?;
                self.show(rt, book)
            }
        }
    }

    // `rt` and `book`, here and below: the system, and the names to write, which a start does not take.
    // A start has at most 128 entries, 2,112 bytes.
    fn start(
        self,
        rt: &HostRuntime,
        definition: usize,
        values: &[Value],
    ) -> Result<(), Failure<'a>> {
        let mut given = io::buffer();
        let mut store = io::buffer();
        machine::start(
            self.machine,
            self.program.bytes(),
            definition,
            slots(values, &mut given),
            &mut store,
        )
        .map_err(|refusal| self.program.refused(refusal, None))?;
        self.keep(rt, &store)
    }

    // Writes the state that a store begins with to the file.
    fn keep(self, rt: &HostRuntime, store: &[u8]) -> Result<(), Failure<'a>> {
        match Store::of(store) {
            Some(state) => stores::save(rt, self.file, state.bytes),
            None => Err(self.refused(Refusal::State)),
        }
    }

    // A refusal of the store; any other than of a store or of a step is of the image.
    fn refused(self, refusal: Refusal) -> Failure<'a> {
        match refusal {
            Refusal::State | Refusal::StepRoom => Failure::Refused {
                file: Input::File(self.file),
                refusal,
                place: None,
            },
            _ => self.program.refused(refusal, None),
        }
    }

    // The bytes of the store, if they are a state of the image.
    fn take(self, rt: &HostRuntime) -> Result<Vec<u8>, Failure<'a>> {
        let mut store = files::read(rt, Input::File(self.file), BYTES + 1)?;
        if BYTES < store.len() {
            return Err(Failure::LargeStore(self.file));
        }
        machine::ask(self.machine, self.program.bytes(), store.as_mut_slice()).map_err(
            |refusal| self.refused(refusal),
        )?;
        Ok(store)
    }

    fn show(self, rt: &HostRuntime, book: Book<'_, '_>) -> Result<(), Failure<'a>> {
        let store = self.take(rt)?;
        self.write_state(rt, book, store.as_slice())
            .map_err(|e| Failure::Call(Subject::Output, e))
    }

    // Makes so many steps. The store is written once its events are, and only if a step was made; what the next step is refused for comes last.
    fn run(self, rt: &HostRuntime, book: Book<'_, '_>, steps: u64) -> Result<(), Failure<'a>> {
        let mut store = self.take(rt)?;
        store.resize(BYTES, 0)?;
        let ran = self
            .write_run(rt, book, steps, store.as_mut_slice())
            .map_err(|e| Failure::Call(Subject::Output, e))?;
        if 0 < ran.made {
            self.keep(rt, store.as_slice())?;
        }
        self.write_standing(rt, ran.made, store.as_mut_slice())
            .map_err(|e| Failure::Call(Subject::Output, e))?;
        ran.end.map_err(|refusal| self.refused(refusal))
    }

    // `steps` and `store`: a number that was asked for, and the bytes of a file.
    fn write_run(
        self,
        rt: &HostRuntime,
        book: Book<'_, '_>,
        steps: u64,
        store: &mut [u8],
    ) -> std::io::Result<Ran> {
        let mut page = Page::new(Output::Standard(rt.stdout()), book);
        let ran = run(&mut page, self.machine, self.program.bytes(), steps, store)?;
        page.flush()?;
        Ok(ran)
    }

    // The last line of a run.
    fn write_standing(self, rt: &HostRuntime, made: u64, store: &mut [u8]) -> std::io::Result<()> {
        let standing = Standing::of(self.machine, self.program.bytes(), store);
        let unit = if made == 1 { "step" } else { "steps" };
        println!(rt; "{made} {unit}, {standing}")
    }

    fn write_state(
        self,
        rt: &HostRuntime,
        book: Book<'_, '_>,
        store: &[u8],
    ) -> std::io::Result<()> {
        let mut page = Page::new(Output::Standard(rt.stdout()), book);
        if let Some(store) = Store::of(store) {
            state::show(&mut page, self.program.bytes(), store)?;
        }
        page.flush()
    }
}
