// substitute.rs: the list rebuilt from the pairs.
ghost use Rattle.std.specs.Prelude.{◌≡◌, ◌+◌, ◌*◌, ◌/◌, ◌≤◌, ◌<◌, ◌^◌, length};
ghost use Rattle.step_spec.specs.Located.{linear_machine};
ghost use Rattle.step_rule.specs.Rules.{Given, MakesAs};
ghost use Rattle.step_statement_substitute.specs.Substituting.{PartsOf, Packs, Replaces};
ghost use Rattle.step_header.specs.States.{entries_of};
ghost use Rattle.step_write.specs.Working.{Fit, Keeps};
ghost use Rattle.step_rows.specs.Rows.{ids_of};
ghost use Rattle.image_read_parts.specs.Recorded.{record_in};
ghost use Rattle.image_kinds.specs.declared.kinds.Kind.TheVariants.{Substitute};

use image_kinds::kinds::Kind;
use image_read_parts::record::RecordAt;
use step_gather::{gather, rename};
use step_header::Header;
use step_header::state::State;
use step_places::stepper::Stepper;
use step_rows::records::{source_row, target_row};
use step_rows::row::Row;
use step_write::{Scratch, Step, Stop, Work, finish_silent, state_of};

// What is read of a Substitute: the IDs that it gives, and those that it takes the values from.
#[derive(Clone, Copy)]
pub struct Parts<'a> {
    pub targets: Row<'a>,
    pub sources: Row<'a>,
}

// The parts of a Substitute.
fn read_parts<'a>(node: &RecordAt<'a>) -> Parts<'a>
    requires { node.now.kind ≡ Substitute }
    ensures { PartsOf (record_in node.now) result }
{
    let targets = target_row(node);
    let sources = source_row(node);
    Parts { targets, sources }
}

// The values of the sources under the IDs of the targets, at the beginning of `scratch`; no, if one is absent. (A yes or no: what it makes is in `scratch`,
// and where it is no, that is of no use.)
fn pack(state: &State<'_>, parts: &Parts<'_>, scratch: &mut Scratch) -> bool
    requires { (parts.now.targets.places.len ≡ parts.now.sources.places.len) × (parts.now.targets.places.len ≤ 128) }
    ensures { Packs (entries_of state.now) (ids_of parts.now.targets) (ids_of parts.now.sources) scratch.new result }
{
    if !gather(&parts.sources, state, scratch, 0) {
        return false;
    }
    rename(&parts.targets, scratch, 0);
    true
}

// These slots instead of the entries.
fn replace(work: &mut Work<'_>, slots: &[u8]) -> Result<Step, Stop>
    requires { Fit work.old × ((16 * (length slots.now / 16) ≡ length slots.now) × (work.old.header.position + 1 < 2 ^ 32)) }
    ensures { Replaces work.old.store.now work.old.events.now work.old.header work.old.at (length slots.now / 16) slots.now work.new.store.now work.new.events.now result × Keeps work.old work.new }
{
    let from = 64 + 16 * work.header.heap as usize;
    let next = Header {
        position: work.header.position + 1,
        ended: false,
        stopped: false,
        entries: (slots.len() / 16) as u64,
        ..work.header
    };
    finish_silent(work, slots, next, from)
}

// The linear machine's. (The source machine has no rule.)
pub fn linear(
    stepper: &Stepper<'_>,
    work: &mut Work<'_>,
    scratch: &mut Scratch,
) -> Result<Step, Stop>
    requires { Given stepper.now work.old 2 }
    ensures { MakesAs linear_machine stepper.now work.old work.new result × Keeps work.old work.new }
{
    let node = RecordAt {
        image: stepper.image,
        index: work.header.position as usize,
        kind: Kind::Substitute,
    };
    let parts = read_parts(&node);
    let state = state_of(work);
    if !pack(&state, &parts, scratch) {
        return Err(Stop::NoStep);
    }
    replace(work, &scratch[..16 * parts.targets.places.len])
}
