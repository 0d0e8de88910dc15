// switch.rs: the clause with the tag of var's cell, and what the cell holds under the clause's names.
ghost use Rattle.std.specs.Prelude.{◌≡◌, ◌+◌, ◌<◌, ◌≤◌};
ghost use Rattle.step_spec.specs.Located.{source_machine, linear_machine};
ghost use Rattle.step_spec.specs.Events.{event_head};
ghost use Rattle.step_write.specs.Working.{Keeps};
ghost use Rattle.step_write.specs.Writing.{head_bytes};
ghost use Rattle.step_rule.specs.Rules.{Given, MakesAs};
ghost use Rattle.step_statement_switch.specs.Switching.{ClauseFor, SwitchesIn};
ghost use Rattle.step_slots.specs.Slots.{as_slot};
ghost use Rattle.step_cells.specs.Cells.{as_cell};

use image_kinds::kinds::Kind;
use image_read_nodes::first;
use image_read_parts::record::RecordAt;
use step_cells::{Cell, cell_of};
use step_enter::{Parameters, clause_of, enter, fetch};
use step_entries::{last_value, slot_of};
use step_places::stepper::Stepper;
use step_slots::Slot;
use step_slots::sort::Sort;
use step_write::{EventHead, Scratch, Step, Stop, Work, state_of, store_of};

// The clause that is entered for this cell, by the Switch at this place.
fn clause_for<'a>(stepper: &Stepper<'a>, position: u32, cell: Cell) -> Option<Parameters<'a>>
    requires { position < stepper.now.image.frame.count }
    ensures { ClauseFor stepper.now.image.frame stepper.now.image.bytes.now position (as_cell cell) result }
{
    if cell.sort != Sort::LetCell {
        return None;
    }
    let clause = clause_of(stepper, position, cell.id)?;
    (clause.row.places.len == cell.len).then_some(clause)
}

// The number of the cell and its tag are shown.
fn event(cell: Cell) -> EventHead
    ensures { head_bytes result ≡ event_head 5 1 cell.id 0 cell.number }
{
    EventHead::of_cell(Kind::Switch, cell.id, cell.number)
}

// `scratch` and `value`: bytes that rules are lent, and a value that one machine looks up and the other takes from the end.
// A Switch on this value. Of the entries that there are the first `front` stay, and the `back` that follow them come behind the new ones.
fn switch(
    stepper: &Stepper<'_>,
    work: &mut Work<'_>,
    scratch: &mut Scratch,
    value: Slot,
    front: usize,
    back: usize,
) -> Result<Step, Stop>
    requires { Given stepper.now work.old 5 × (front + back ≤ work.old.header.entries) }
    ensures { SwitchesIn stepper.now work.old work.new (as_slot value) front back result }
{
    let header = work.header;
    let state = state_of(work);
    let cell = cell_of(&state, value).ok_or(Stop::NoStep)?;
    let clause = clause_for(stepper, header.position, cell).ok_or(Stop::NoStep)?;
    fetch(store_of(work), cell.from, clause.row.places.len, scratch);
    enter(&clause, work, scratch, event(cell), front, back)
}

// The source machine's: the new variables come before all others, var among them.
pub fn source(
    stepper: &Stepper<'_>,
    work: &mut Work<'_>,
    scratch: &mut Scratch,
) -> Result<Step, Stop>
    requires { Given stepper.now work.old 5 }
    ensures { MakesAs source_machine stepper.now work.old work.new result × Keeps work.old work.new }
{
    let node = RecordAt {
        image: stepper.image,
        index: work.header.position as usize,
        kind: Kind::Switch,
    };
    let var = first(&node);
    let state = state_of(work);
    let value = slot_of(&state, var.id.0).ok_or(Stop::NoStep)?;
    let back = work.header.entries as usize;
    switch(stepper, work, scratch, value, 0, back)
}

// The linear machine's: the value is that of the last entry, and the new variables take its place.
pub fn linear(
    stepper: &Stepper<'_>,
    work: &mut Work<'_>,
    scratch: &mut Scratch,
) -> Result<Step, Stop>
    requires { Given stepper.now work.old 5 }
    ensures { MakesAs linear_machine stepper.now work.old work.new result × Keeps work.old work.new }
{
    let state = state_of(work);
    let value = last_value(&state).ok_or(Stop::NoStep)?;
    let front = work.header.entries as usize - 1;
    switch(stepper, work, scratch, value, front, 0)
}
