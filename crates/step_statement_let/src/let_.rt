// let.rs: the values of the args with the tag in a new cell, and the cell under var.
ghost use Rattle.std.specs.Prelude.{◌≡◌, ◌∷◌, ◌++◌, map, ◌+◌, ◌-◌, ◌*◌, ◌≤◌, ◌<◌, ◌^◌, length, take, drop};
ghost use Rattle.image_spec.specs.Parse.{each};
ghost use Rattle.step_slots.specs.Slots.{slot_bytes, as_slot};
ghost use Rattle.step_spec.specs.Events.{event_head};
ghost use Rattle.step_spec.specs.Located.{source_machine, linear_machine};
ghost use Rattle.step_entries.specs.Named.{under};
ghost use Rattle.step_write.specs.Writing.{head_bytes};
ghost use Rattle.step_rule.specs.Rules.{Given, MakesAs};
ghost use Rattle.step_statement_let.specs.Letting.{PartsOf, kept, cell_slot_lem, Packs, AddsBefore, AddsBehind};
ghost use Rattle.step_last.specs.NewCell.{var_slot_lem};
ghost use Rattle.step_header.specs.States.{entries_of};
ghost use Rattle.step_rows.specs.Rows.{ids_of};
ghost use Rattle.step_write.specs.Working.{Fit, Keeps};
ghost use Rattle.image_read_parts.specs.Recorded.{record_in};
ghost use Rattle.image_kinds.specs.declared.kinds.Kind.TheVariants.{Let};

use image_kinds::kinds::Kind;
use image_read_nodes::first;
use image_read_parts::record::RecordAt;
use image_write_bytes::bytes::copy;
use step_gather::{erase, gather};
use step_header::Header;
use step_header::state::State;
use step_last::{after, var_slot};
use step_places::stepper::Stepper;
use step_rows::records::list_row;
use step_rows::row::Row;
use step_slots::sort::Sort;
use step_slots::{Slot, put_slot};
use step_tags::tag_of;
use step_write::{EventHead, Scratch, Step, Stop, Work, finish, finish_before, state_of};

// What is read of a Let: the ID of its var, the name of its tag, and the row of its args.
#[derive(Clone, Copy)]
pub struct Parts<'a> {
    pub id: u32,
    pub tag: u32,
    pub args: Row<'a>,
}

// The parts of a Let.
fn read_parts<'a>(node: &RecordAt<'a>) -> Parts<'a>
    requires { node.now.kind ≡ Let }
    ensures { PartsOf (record_in node.now) result }
{
    let var = first(node);
    let tag = tag_of(node);
    let args = list_row(node);
    Parts {
        id: var.id.0,
        tag: u32::from(tag.name.0),
        args,
    }
}

// The number of the new cell is shown, and its tag.
fn event(header: Header, tag: u32) -> EventHead
    ensures { head_bytes result ≡ event_head 4 1 tag 0 header.cells }
{
    EventHead::of_cell(Kind::Let, tag, header.cells)
}

// The new cell's own slot. (Not one with Create's: the sort and the ID would be its parameters, and then it is the slot.)
fn cell_slot(header: Header, tag: u32) -> Slot
    ensures { as_slot result ≡ cell_slot_lem header tag }
{
    Slot {
        sort: Sort::LetCell,
        id: tag,
        payload: header.cells,
    }
}

// A cell that holds the values of the args, and var behind it, at the beginning of `scratch`; no, if one is absent. (A yes or no: what it makes is in
// `scratch`, and where it is no, that is of no use.)
fn pack_found(state: &State<'_>, parts: &Parts<'_>, scratch: &mut Scratch) -> bool
    requires { parts.now.args.places.len ≤ 128 }
    ensures { Packs (entries_of state.now) (ids_of parts.now.args) state.now.header parts.now scratch.new result }
{
    let header = state.header;
    let args = &parts.args;
    put_slot(scratch, 0, cell_slot(header, parts.tag));
    if !gather(args, state, scratch, 16) {
        return false;
    }
    put_slot(
        scratch,
        16 + 16 * args.places.len,
        var_slot(header, parts.id),
    );
    true
}

// The cell of the args' values and var go before the entries.
fn add_before(work: &mut Work<'_>, slots: &[u8], parts: &Parts<'_>) -> Result<Step, Stop>
    requires { Fit work.old × ((length slots.now ≡ 16 * (parts.now.args.places.len + 2)) × (work.old.header.position + 1 < 2 ^ 32)) }
    ensures { AddsBefore work.old work.new parts.now slots.now result }
{
    let heap = work.header.heap as usize;
    let n = work.header.entries as usize;
    let next = after(
        work.header,
        work.header.position + 1,
        parts.args.places.len as u64,
        work.header.entries,
    );
    let shown = event(work.header, parts.tag);
    finish(work, slots, shown, next, 64 + 16 * heap, n)
}

// The source machine's: the args are looked up, and the environment stays behind var.
pub fn source(
    stepper: &Stepper<'_>,
    work: &mut Work<'_>,
    scratch: &mut Scratch,
) -> Result<Step, Stop>
    requires { Given stepper.now work.old 4 }
    ensures { MakesAs source_machine stepper.now work.old work.new result × Keeps work.old work.new }
{
    let node = RecordAt {
        image: stepper.image,
        index: work.header.position as usize,
        kind: Kind::Let,
    };
    let parts = read_parts(&node);
    let state = state_of(work);
    if !pack_found(&state, &parts, scratch) {
        return Err(Stop::NoStep);
    }
    let k = parts.args.places.len;
    add_before(work, &scratch[..16 * (k + 2)], &parts)
}

// `tag` and `k`: all that the linear machine needs of a Let's parts here; the IDs of its args are not read.
// A cell that holds the values of the last k entries, at the beginning of `scratch`.
fn pack_last(state: &State<'_>, tag: u32, k: usize, scratch: &mut Scratch)
    requires { (k ≤ state.now.header.entries) × (k ≤ 128) }
    ensures { take (16 * (k + 1)) scratch.new ≡ each slot_bytes (cell_slot_lem state.now.header tag ∷ map (under 0) (drop (state.now.header.entries - k) (entries_of state.now))) }
{
    let header = state.header;
    let heap = header.heap as usize;
    let others = header.entries as usize - k;
    put_slot(scratch, 0, cell_slot(header, tag));
    let from = 64 + 16 * heap + 16 * others;
    copy(&state.store[from..from + 16 * k], scratch, 16);
    erase(scratch, 16, k);
}

// The cell of the args' values goes before what is left without as many last entries, and var behind it.
fn add_behind(work: &mut Work<'_>, slots: &[u8], parts: &Parts<'_>) -> Result<Step, Stop>
    requires { Fit work.old × ((length slots.now ≡ 16 * (parts.now.args.places.len + 1)) × ((work.old.header.position + 1 < 2 ^ 32) × (parts.now.args.places.len ≤ work.old.header.entries))) }
    ensures { AddsBehind work.old work.new parts.now slots.now result }
{
    let k = parts.args.places.len;
    let heap = work.header.heap as usize;
    let others = work.header.entries as usize - k;
    let next = after(
        work.header,
        work.header.position + 1,
        k as u64,
        others as u64,
    );
    let shown = event(work.header, parts.tag);
    let var = var_slot(work.header, parts.id);
    finish_before(work, slots, shown, next, 64 + 16 * heap, others, var)
}

// The linear machine's: the last entries become the cell's values. With fewer entries than args it would have stopped.
pub fn linear(
    stepper: &Stepper<'_>,
    work: &mut Work<'_>,
    scratch: &mut Scratch,
) -> Result<Step, Stop>
    requires { Given stepper.now work.old 4 }
    ensures { MakesAs linear_machine stepper.now work.old work.new result × Keeps work.old work.new }
{
    let node = RecordAt {
        image: stepper.image,
        index: work.header.position as usize,
        kind: Kind::Let,
    };
    let parts = read_parts(&node);
    let k = parts.args.places.len;
    if (work.header.entries as usize) < k {
        return Err(Stop::NoStep);
    }
    let state = state_of(work);
    pack_last(&state, parts.tag, k, scratch);
    add_behind(work, &scratch[..16 * (k + 1)], &parts)
}
