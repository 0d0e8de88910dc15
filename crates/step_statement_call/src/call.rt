// call.rs: the definition with this label, and the values under the names of its parameters. Nothing else is in its environment.
ghost use Rattle.std.specs.Prelude.{◌≡◌, true, ◌≤◌, ◌*◌, length};
ghost use Rattle.image_read_nodes.specs.Nodes.{first_of};
ghost use Rattle.step_slots.specs.Views.{slots_at, all_slots};
ghost use Rattle.step_spec.specs.Located.{source_machine, linear_machine};
ghost use Rattle.step_spec.specs.Events.{event_head};
ghost use Rattle.step_gather.specs.Gathering.{renamed};
ghost use Rattle.step_rule.specs.Rules.{Given, MakesAs};
ghost use Rattle.step_enter.specs.Entering.{EntersIn};
ghost use Rattle.step_statement_call.specs.Calling.{DefinitionOf};
ghost use Rattle.step_write.specs.Working.{Fit, Keeps};
ghost use Rattle.step_rows.specs.Rows.{ids_of};
ghost use Rattle.image_read_parts.specs.Recorded.{record_in};
ghost use Rattle.image_kinds.specs.declared.kinds.Kind.TheVariants.{Call};

use image_kinds::kinds::Kind;
use image_read_nodes::first;
use image_read_parts::record::RecordAt;
use step_enter::{Parameters, enter, fetch, parameters_of};
use step_gather::gather;
use step_places::search::find_label;
use step_places::stepper::Stepper;
use step_rows::records::list_row;
use step_write::{EventHead, Scratch, Step, Stop, Work, state_of, store_of};

// The label of a Call.
fn label_of(node: &RecordAt<'_>) -> u32
    requires { node.now.kind ≡ Call }
    ensures { result ≡ (first_of (record_in node.now)).name.0 }
{
    let label = first(node);
    u32::from(label.name.0)
}

// The first definition with this label.
fn definition_of<'a>(stepper: &Stepper<'a>, label: u32) -> Option<Parameters<'a>>
    ensures { DefinitionOf stepper.now stepper.now.image.bytes.now label result }
{
    let j = find_label(stepper, label)?;
    let node = RecordAt {
        image: stepper.image,
        index: j,
        kind: Kind::Definition,
    };
    Some(parameters_of(&node))
}

// A step to the body, with the values at the beginning of scratch as the only entries. The label is shown.
fn jump(
    called: &Parameters<'_>,
    work: &mut Work<'_>,
    scratch: &mut Scratch,
    label: u32,
) -> Result<Step, Stop>
    requires { Fit work.old × ((16 * called.now.row.places.len ≤ length scratch.old) × (all_slots (slots_at scratch.old 0 called.now.row.places.len) ≡ true)) }
    ensures { EntersIn work.old work.new called.now.body (event_head 3 0 label 0 0) 0 0 (renamed (ids_of called.now.row) (slots_at scratch.old 0 called.now.row.places.len)) result }
{
    // (By its fields: it shows a label and no value, which no other event does.)
    let event = EventHead {
        kind: Kind::Call,
        detail: 0,
        name: label,
        count: 0,
        payload: 0,
    };
    enter(called, work, scratch, event, 0, 0)
}

// The source machine's: the values are those of the args.
pub fn source(
    stepper: &Stepper<'_>,
    work: &mut Work<'_>,
    scratch: &mut Scratch,
) -> Result<Step, Stop>
    requires { Given stepper.now work.old 3 }
    ensures { MakesAs source_machine stepper.now work.old work.new result × Keeps work.old work.new }
{
    let node = RecordAt {
        image: stepper.image,
        index: work.header.position as usize,
        kind: Kind::Call,
    };
    let args = list_row(&node);
    let state = state_of(work);
    if !gather(&args, &state, scratch, 0) {
        return Err(Stop::NoStep);
    }
    let label = label_of(&node);
    let called = definition_of(stepper, label).ok_or(Stop::NoStep)?;
    if called.row.places.len != args.places.len {
        return Err(Stop::NoStep);
    }
    jump(&called, work, scratch, label)
}

// The linear machine's: the values are those of all entries. The args aren't read.
pub fn linear(
    stepper: &Stepper<'_>,
    work: &mut Work<'_>,
    scratch: &mut Scratch,
) -> Result<Step, Stop>
    requires { Given stepper.now work.old 3 }
    ensures { MakesAs linear_machine stepper.now work.old work.new result × Keeps work.old work.new }
{
    let from = 64 + 16 * work.header.heap as usize;
    let entries = work.header.entries as usize;
    let node = RecordAt {
        image: stepper.image,
        index: work.header.position as usize,
        kind: Kind::Call,
    };
    let label = label_of(&node);
    let called = definition_of(stepper, label).ok_or(Stop::NoStep)?;
    if called.row.places.len != entries {
        return Err(Stop::NoStep);
    }
    fetch(store_of(work), from, entries, scratch);
    jump(&called, work, scratch, label)
}
