// invoke.rs: the clause with the tag of the closure that var is: its parameters have the args' values, and the closure's entries are behind them. Of an
// outside number, the end of the run.
ghost use Rattle.std.specs.Prelude.{◌≡◌, ◌+◌, ◌*◌, ◌/◌, ◌≤◌, length};
ghost use Rattle.step_slots.specs.Views.{slots_at};
ghost use Rattle.step_spec.specs.Events.{event_head};
ghost use Rattle.step_spec.specs.Located.{source_machine, linear_machine};
ghost use Rattle.step_tags.specs.Tags.{tag_in};
ghost use Rattle.step_write.specs.Working.{Keeps};
ghost use Rattle.step_write.specs.Writing.{head_bytes};
ghost use Rattle.step_rule.specs.Rules.{Given, MakesAs};
ghost use Rattle.step_statement_invoke.specs.Invoking.{EntranceOf, Enterable, EntersClauseIn, over, FewSlots, InvokesIn};
ghost use Rattle.step_slots.specs.Slots.{as_slot};
ghost use Rattle.step_rows.specs.Rows.{ids_of};
ghost use Rattle.step_cells.specs.Cells.{as_cell};
ghost use Rattle.image_read_parts.specs.Recorded.{record_in};
ghost use Rattle.image_kinds.specs.declared.kinds.Kind.TheVariants.{Invoke};

use image_kinds::kinds::Kind;
use image_read_nodes::first;
use image_read_parts::record::RecordAt;
use step_cells::{Cell, cell_of};
use step_enter::{Parameters, after, clause_of, fetch};
use step_entries::{last_value, slot_of};
use step_gather::{gather, rename};
use step_header::Header;
use step_places::stepper::Stepper;
use step_rows::records::list_row;
use step_show::{finish_showing, finish_showing_from};
use step_slots::Slot;
use step_slots::sort::Sort;
use step_tags::tag_of;
use step_write::{EventHead, Scratch, Step, Stop, Work, finish_entering, state_of, store_of};

// The name of the tag of an Invoke.
fn read_tag(node: &RecordAt<'_>) -> u32
    requires { node.now.kind ≡ Invoke }
    ensures { result ≡ (tag_in (record_in node.now)).name.0 }
{
    let tag = tag_of(node);
    u32::from(tag.name.0)
}

// `tag` and `k`: a name that the record has, and a count, of its args on one machine and of a state's entries on the other.
// `cell` and `tag`: what a store has, and what the image asks of it. `scratch` and `value`: bytes that are lent, and a value that was read.
// The parameters of the first clause with this tag of the closure in a cell; absent also where they are not k, or the cell is no closure.
// (`clause_for` of Switch is not this with another sort: it is given the Switch's place, where there is a record, and the cell has the tag and the count;
// here the cell has the place, which may be no record's, and the tag and the count are the Invoke's. One function would take all four beside the cell.)
fn entrance_of<'a>(stepper: &Stepper<'a>, cell: Cell, tag: u32, k: usize) -> Option<Parameters<'a>>
    ensures { EntranceOf stepper.now.image.frame stepper.now.image.bytes.now (as_cell cell) tag k result }
{
    if cell.sort != Sort::CreateCell || stepper.image.frame.count <= cell.id as usize {
        return None;
    }
    let clause = clause_of(stepper, cell.id, tag)?;
    (clause.row.places.len == k).then_some(clause)
}

// The number of the closure's cell is shown, and the tag.
fn event(cell: Cell, tag: u32) -> EventHead
    ensures { head_bytes result ≡ event_head 7 1 tag 0 cell.number }
{
    EventHead::of_cell(Kind::Invoke, tag, cell.number)
}

// The body of the clause, where these slots are its parameters and the closure's entries are behind them.
// (Not `step_enter::enter`: behind the new entries come those of the cell, and none of the list.)
fn enter_clause(
    clause: &Parameters<'_>,
    work: &mut Work<'_>,
    slots: &mut [u8],
    cell: Cell,
    tag: u32,
) -> Result<Step, Stop>
    requires { Enterable work.old slots.old (as_cell cell) clause.now.row }
    ensures { EntersClauseIn work.old work.new (as_cell cell) clause.now.body (ids_of clause.now.row) (slots_at slots.old 0 clause.now.row.places.len) tag result }
{
    let k = clause.row.places.len;
    let len = cell.len;
    let next = after(work.header, clause.body, (k + len) as u64);
    let from = 64 + 16 * work.header.heap as usize;
    rename(&clause.row, slots, 0);
    let shown = event(cell, tag);
    finish_entering(work, slots, shown, next, from, cell.from, len)
}

// The outside number is shown, the tag, and how many values follow. (By its fields: no other event shows how many. A count has four bytes there; the
// remainder says so, for a cast must lose nothing.)
fn last_event(tag: u32, number: u64, n: usize) -> EventHead
    ensures { head_bytes result ≡ event_head 7 2 tag n number }
{
    EventHead {
        kind: Kind::Invoke,
        detail: Sort::Outside as u8,
        name: tag,
        count: (n % 0x1_0000_0000) as u32,
        payload: number,
    }
}

// The header of the state in which the run has ended: nothing else changes.
fn ended(header: Header) -> Header
    ensures { result ≡ over header }
{
    Header {
        ended: true,
        stopped: false,
        ..header
    }
}

// The values of the args are these slots.
// (`linear_enter` has other slots and is no call of this: entries in the store, and of them an event may show more than scratch has room for; only once
// a clause is found that has as many parameters are they few enough to be fetched.)
fn source_enter(
    stepper: &Stepper<'_>,
    work: &mut Work<'_>,
    slots: &mut [u8],
    value: Slot,
    tag: u32,
) -> Result<Step, Stop>
    requires { Given stepper.now work.old 7 × FewSlots slots.old }
    ensures { InvokesIn stepper.now work.old work.new (as_slot value) (slots_at slots.old 0 (length slots.old / 16)) tag result }
{
    let k = slots.len() / 16;
    if value.sort == Sort::Outside {
        let shown = last_event(tag, value.payload, k);
        let next = ended(work.header);
        return finish_showing_from(work, slots, shown, next);
    }
    let state = state_of(work);
    let cell = cell_of(&state, value).ok_or(Stop::NoStep)?;
    let clause = entrance_of(stepper, cell, tag, k).ok_or(Stop::NoStep)?;
    enter_clause(&clause, work, slots, cell, tag)
}

// The source machine's: var and the args are looked up.
pub fn source(
    stepper: &Stepper<'_>,
    work: &mut Work<'_>,
    scratch: &mut Scratch,
) -> Result<Step, Stop>
    requires { Given stepper.now work.old 7 }
    ensures { MakesAs source_machine stepper.now work.old work.new result × Keeps work.old work.new }
{
    let node = RecordAt {
        image: stepper.image,
        index: work.header.position as usize,
        kind: Kind::Invoke,
    };
    let var = first(&node);
    let state = state_of(work);
    let value = slot_of(&state, var.id.0).ok_or(Stop::NoStep)?;
    let tag = read_tag(&node);
    let row = list_row(&node);
    let slots = &mut scratch[..16 * row.places.len];
    if !gather(&row, &state, slots, 0) {
        return Err(Stop::NoStep);
    }
    source_enter(stepper, work, slots, value, tag)
}

// The values of the args are the first k entries.
fn linear_enter(
    stepper: &Stepper<'_>,
    work: &mut Work<'_>,
    scratch: &mut Scratch,
    value: Slot,
    tag: u32,
    k: usize,
) -> Result<Step, Stop>
    requires { Given stepper.now work.old 7 × (k ≤ work.old.header.entries) }
    ensures { InvokesIn stepper.now work.old work.new (as_slot value) (slots_at work.old.store.now (64 + 16 * work.old.header.heap) k) tag result }
{
    let from = 64 + 16 * work.header.heap as usize;
    if value.sort == Sort::Outside {
        let shown = last_event(tag, value.payload, k);
        let next = ended(work.header);
        return finish_showing(work, shown, next, from, k);
    }
    let state = state_of(work);
    let cell = cell_of(&state, value).ok_or(Stop::NoStep)?;
    let clause = entrance_of(stepper, cell, tag, k).ok_or(Stop::NoStep)?;
    let slots = &mut scratch[..16 * k];
    fetch(store_of(work), from, k, slots);
    enter_clause(&clause, work, slots, cell, tag)
}

// The linear machine's: var is the last entry, and the args are those before it.
pub fn linear(
    stepper: &Stepper<'_>,
    work: &mut Work<'_>,
    scratch: &mut Scratch,
) -> Result<Step, Stop>
    requires { Given stepper.now work.old 7 }
    ensures { MakesAs linear_machine stepper.now work.old work.new result × Keeps work.old work.new }
{
    let state = state_of(work);
    let value = last_value(&state).ok_or(Stop::NoStep)?;
    let k = work.header.entries as usize - 1;
    let node = RecordAt {
        image: stepper.image,
        index: work.header.position as usize,
        kind: Kind::Invoke,
    };
    let tag = read_tag(&node);
    linear_enter(stepper, work, scratch, value, tag, k)
}
