// create.rs: the clauses with an environment in a new cell, and the cell under var.
ghost use Rattle.std.specs.Prelude.{◌≡◌, ◌++◌, ◌+◌, ◌*◌, ◌≤◌, ◌<◌, ◌^◌, length, take, drop};
ghost use Rattle.step_slots.specs.Slots.{slot_bytes, as_slot};
ghost use Rattle.step_spec.specs.Events.{event_head};
ghost use Rattle.step_spec.specs.Located.{source_machine, linear_machine};
ghost use Rattle.step_write.specs.Writing.{head_bytes};
ghost use Rattle.step_rule.specs.Rules.{Given, MakesAs};
ghost use Rattle.step_statement_create.specs.Creating.{PartsOf, cell_slot_lem, Closes};
ghost use Rattle.image_kinds.specs.declared.kinds.Kind.TheVariants.{Create};
ghost use Rattle.step_write.specs.Working.{Fit, Keeps};

use image_kinds::kinds::Kind;
use image_read_nodes::{first, parts_of};
use image_read_parts::record::RecordAt;
use image_write_bytes::bytes::copy;
use step_header::Header;
use step_last::{after, var_slot};
use step_places::ends::hop;
use step_places::stepper::Stepper;
use step_rows::records::environment_row;
use step_slots::sort::Sort;
use step_slots::{Slot, put_slot};
use step_write::{EventHead, Scratch, Step, Stop, Work, finish_before, finish_holding, store_of};

// What is read of a Create: the ID of its var, and the place of its body.
#[derive(Clone, Copy)]
pub struct Parts {
    pub id: u32,
    pub next: u32,
}

// The parts of a Create, with the table of ends.
fn read_parts(node: &RecordAt<'_>, ends: &[u32]) -> Parts
    requires { node.now.kind ≡ Create }
    ensures { PartsOf node.now.image.frame node.now.image.bytes.now ends.now node.now.index result }
{
    let i = node.index;
    let var = first(node);
    let follows = parts_of(&node.image, i);
    let body = hop(ends, i + 1, follows.clauses);
    Parts {
        id: var.id.0,
        next: body as u32,
    }
}

// The number of the new cell is shown.
fn event(header: Header) -> EventHead
    ensures { head_bytes result ≡ event_head 6 1 0 0 header.cells }
{
    EventHead::of_cell(Kind::Create, 0, header.cells)
}

// The new cell's own slot.
fn cell_slot(header: Header) -> Slot
    ensures { as_slot result ≡ cell_slot_lem header }
{
    Slot {
        sort: Sort::CreateCell,
        id: header.position,
        payload: header.cells,
    }
}

// The source machine's: the cell holds the whole environment, which stays behind var.
pub fn source(stepper: &Stepper<'_>, work: &mut Work<'_>) -> Result<Step, Stop>
    requires { Given stepper.now work.old 6 }
    ensures { MakesAs source_machine stepper.now work.old work.new result × Keeps work.old work.new }
{
    let from = 64 + 16 * work.header.heap as usize;
    let n = work.header.entries as usize;
    let node = RecordAt {
        image: stepper.image,
        index: work.header.position as usize,
        kind: Kind::Create,
    };
    let create = read_parts(&node, stepper.ends);
    let next = after(
        work.header,
        create.next,
        work.header.entries,
        work.header.entries,
    );
    let cell = cell_slot(work.header);
    let var = var_slot(work.header, create.id);
    let shown = event(work.header);
    finish_holding(work, shown, next, from, n, cell, var)
}

// A cell that holds the k entries from byte `from` of the store, at the beginning of `scratch`.
// `from` and `k`: where the entries begin that the cell takes, and how many they are; on the source machine it takes all.
fn pack(store: &[u8], from: usize, k: usize, cell: Slot, scratch: &mut Scratch)
    requires { (from + 16 * k ≤ length store.now) × (k ≤ 128) }
    ensures { take (16 * (k + 1)) scratch.new ≡ slot_bytes (as_slot cell) ++ take (16 * k) (drop from store.now) }
{
    let next = put_slot(scratch, 0, cell);
    copy(&store[from..from + 16 * k], scratch, next);
}

// The last k entries become the cell's, and the others stay before var.
fn close_over(
    work: &mut Work<'_>,
    scratch: &mut Scratch,
    create: Parts,
    k: usize,
) -> Result<Step, Stop>
    requires { Fit work.old × ((k ≤ 128) × (k ≤ work.old.header.entries)) }
    ensures { Closes work.old.store.now work.old.events.now work.old.header work.old.at create k work.new.store.now work.new.events.now result × Keeps work.old work.new }
{
    let kept = work.header.entries as usize - k;
    let from = 64 + 16 * work.header.heap as usize;
    let last = from + 16 * kept;
    let next = after(work.header, create.next, k as u64, kept as u64);
    let cell = cell_slot(work.header);
    let var = var_slot(work.header, create.id);
    let shown = event(work.header);
    pack(store_of(work), last, k, cell, scratch);
    let slots = &scratch[..16 * (k + 1)];
    finish_before(work, slots, shown, next, from, kept, var)
}

// The linear machine's. With no environment, or a longer one than the list, it would have stopped.
pub fn linear(
    stepper: &Stepper<'_>,
    work: &mut Work<'_>,
    scratch: &mut Scratch,
) -> Result<Step, Stop>
    requires { Given stepper.now work.old 6 }
    ensures { MakesAs linear_machine stepper.now work.old work.new result × Keeps work.old work.new }
{
    let node = RecordAt {
        image: stepper.image,
        index: work.header.position as usize,
        kind: Kind::Create,
    };
    let row = environment_row(&node).ok_or(Stop::NoStep)?;
    if (work.header.entries as usize) < row.places.len {
        return Err(Stop::NoStep);
    }
    let create = read_parts(&node, stepper.ends);
    close_over(work, scratch, create, row.places.len)
}
