// States as text: the statement at hand, the flags, the environment and the cells.
use crate::scope::innermost;
use crate::store::{Slot, Store};
use std::io::{self, Write};
use tool_listing::names::Typing;
use tool_listing::page::Page;
use try_building::image::Image;
use try_building::record::Record;

#[derive(Drop)]
struct State<'p, 'b, 'i> {
    page: &'p mut Page<'b>,
    image: Image<'i>,
    store: Store<'i>,
}

impl State<'_, '_, '_> {
    // The line of the statement at hand, and the index of its record, as a listing has them.
    fn statement(&mut self) -> io::Result<()> {
        let position = self.store.position;
        if let Some(record) = record_at(self.image, position) {
            self.page.line(record, Typing::Bare)?;
        }
        writeln!(self.page, "  // {position}")
    }

    fn flags(&mut self) -> io::Result<()> {
        self.page
            .say(match (self.store.has_ended, self.store.has_stopped) {
                (false, false) => "flags: none\n",
                (true, false) => "flags: ended\n",
                (false, true) => "flags: stopped\n",
                (true, true) => "flags: ended, stopped\n",
            })
    }

    // The variable of an ID around a record, or the ID alone where none has it.
    fn named(&mut self, position: u32, id: u32) -> io::Result<()> {
        match innermost(self.image, position, id) {
            Some(variable) => self.page.variable(variable),
            None => write!(self.page, "_{id}"),
        }
    }

    fn held(&mut self, slot: Slot) -> io::Result<()> {
        write!(self.page, "{}", self.store.value(slot))
    }

    // An entry, with the variable that it is around a record.
    fn entry(&mut self, slot: Slot, position: u32) -> io::Result<()> {
        if let Slot::Held { id, .. } = slot {
            self.named(position, id)?;
        }
        self.page.say(" = ")?;
        self.held(slot)
    }

    fn environment(&mut self) -> io::Result<()> {
        self.page.say("environment:\n")?;
        for slot in self.store.entries {
            self.page.say("  ")?;
            self.entry(slot, self.store.position)?;
            self.page.say("\n")?;
        }
        Ok(())
    }

    // The tag of a cell that a Let made, or create and the variable of the Create's record.
    fn maker(&mut self, own: Slot) -> io::Result<()> {
        match own {
            Slot::Let { tag, .. } => match u16::try_from(tag) {
                Ok(tag) => self.page.name(tag),
                Err(_) => write!(self.page, "n{tag}"),
            },
            Slot::Create { record, .. } => {
                self.page.say("create ")?;
                if let Some(Record::Create { variable, .. }) = record_at(self.image, record) {
                    self.page.variable(variable)?;
                }
                self.page.say(" ")
            }
            Slot::Held { .. } => Ok(()),
        }
    }

    // What a cell holds: the slots from a place on, up to the next cell's own. That of a Create has entries.
    fn contents(&mut self, own: Slot, from: usize) -> io::Result<()> {
        let held = self
            .store
            .cells
            .from(from)
            .take_while(|slot| matches!(slot, Slot::Held { .. }));
        for (j, slot) in held.enumerate() {
            self.page.comma(j)?;
            match own {
                Slot::Create { record, .. } => self.entry(slot, record)?,
                Slot::Let { .. } | Slot::Held { .. } => self.held(slot)?,
            }
        }
        Ok(())
    }

    // A cell whose contents are from a place on. Behind one that a Create made comes the index of its record.
    fn cell(&mut self, own: Slot, from: usize) -> io::Result<()> {
        self.page.say("  ")?;
        self.held(own)?;
        self.page.say(" = ")?;
        self.maker(own)?;
        self.page.say("(")?;
        self.contents(own, from)?;
        self.page.say(")")?;
        if let Slot::Create { record, .. } = own {
            write!(self.page, "  // {record}")?;
        }
        self.page.say("\n")
    }

    fn cells(&mut self) -> io::Result<()> {
        self.page.say("cells:\n")?;
        for (k, own) in self.store.cells.enumerate() {
            match own {
                Slot::Let { .. } | Slot::Create { .. } => self.cell(own, k + 1)?,
                Slot::Held { .. } => {}
            }
        }
        Ok(())
    }
}

fn record_at(image: Image<'_>, place: u32) -> Option<Record<'_>> {
    image.record(u16::try_from(place).ok()?)
}

// Writes the state that a store begins with.
pub fn show(page: &mut Page<'_>, image: &[u8], store: Store<'_>) -> io::Result<()> {
    let mut state = State {
        page,
        image: Image::new(image),
        store,
    };
    state.statement()?;
    state.flags()?;
    state.environment()?;
    state.cells()
}
