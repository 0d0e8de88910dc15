// ifc.rs: the first branch where the comparison holds, else the second.
ghost use Rattle.std.specs.Prelude.{◌≡◌, false};
ghost use Rattle.syntax.specs.Options.{option_of};
ghost use Rattle.step_spec.specs.Events.{event_head};
ghost use Rattle.step_rule.specs.Rules.{Given, machine_in, MakesAs};
ghost use Rattle.step_stay.specs.Staying.{Stays};
ghost use Rattle.step_statement_ifc.specs.Choices.{second_in};
ghost use Rattle.step_header.specs.States.{entries_of};
ghost use Rattle.step_write.specs.Working.{Fit, Keeps};

use image_kinds::kinds::Kind;
use image_read_parts::record::RecordAt;
use pass_records as records;
use step_arithmetic::comparison::holds;
use step_header::state::State;
use step_lookup::integer_of;
use step_places::ends::behind;
use step_places::stepper::Stepper;
use step_stay::stay;
use step_write::{EventHead, Step, Stop, Work, state_of};
use syntax::names::Identifier;

// The integer of the second operand: 0 without one.
fn second(state: &State<'_>, snd: Option<Identifier>) -> Option<i64>
    ensures { option_of result ≡ second_in (entries_of state.now) (option_of snd) }
{
    match snd {
        None => Some(0),
        Some(x) => integer_of(state, x.id.0),
    }
}

// The step to a branch at this place. (`branch` is the byte that the event shows of it, 1 or 0, as the format has it: a bool would be made this byte at once,
// and the clause would say of it what byte that is.)
fn enter(work: &mut Work<'_>, place: u32, branch: u8) -> Result<Step, Stop>
    requires { Fit work.old }
    ensures { Stays work.old.store.now work.old.events.now work.old.header work.old.at place false (event_head 10 branch 0 0 0) work.new.store.now work.new.events.now result × Keeps work.old work.new }
{
    let event = EventHead::of_payload(Kind::IfC, branch, 0);
    stay(work, place, false, event)
}

pub fn ifc(stepper: &Stepper<'_>, work: &mut Work<'_>) -> Result<Step, Stop>
    requires { Given stepper.now work.old 10 }
    ensures { MakesAs (machine_in stepper.now) stepper.now work.old work.new result × Keeps work.old work.new }
{
    let position = work.header.position as usize;
    let node = RecordAt {
        image: stepper.image,
        index: position,
        kind: Kind::IfC,
    };
    let statement = records::ifc(&node);
    let header = work.header;
    let state = state_of(work);
    let a = integer_of(&state, statement.fst.id.0).ok_or(Stop::NoStep)?;
    let b = second(&state, statement.snd).ok_or(Stop::NoStep)?;
    if holds(statement.sort, a, b) {
        return enter(work, header.position + 1, 1);
    }
    let place = behind(stepper.ends, position + 1) as u32;
    enter(work, place, 0)
}
