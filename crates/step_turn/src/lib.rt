// One turn: the step of the statement at hand, and the stopped flag of the state that it leads to.
#![tactic(auto)]

ghost use Rattle.std.specs.Prelude.{◌≤◌, length};
ghost use Rattle.step_rule.specs.Rules.{machine_in};
ghost use Rattle.step_order.specs.Sure.{SureIn};
ghost use Rattle.step_turn.specs.Turning.{Lives, AdvancesIn};

use image_read_nodes::parts_of;
use step_dispatch::statement;
use step_places::stepper::Stepper;
use step_settle::settle;
use step_write::{Scratch, Step, Stop, Work};

// The stepper's step from the state in the store, if it has one and there is room for it.
pub fn advance(
    stepper: &Stepper<'_>,
    work: &mut Work<'_>,
    scratch: &mut Scratch,
    sure: bool,
) -> Result<Step, Stop>
    requires { (work.old.at ≤ length work.old.events.now) × (Lives (machine_in stepper.now) stepper.now stepper.now.image.bytes.now work.old.store.now work.old.header × SureIn stepper.now sure work.old.store.now work.old.header) }
    ensures { AdvancesIn stepper.now work.old work.new result }
{
    if work.header.ended || work.header.stopped {
        return Err(Stop::NoStep);
    }
    let follows = parts_of(&stepper.image, work.header.position as usize);
    let step = statement(stepper, work, scratch, follows.kind)?;
    Ok(Step {
        header: settle(stepper, work.store, step.header, sure),
        at: step.at,
    })
}
