// Steps one after another.
#![tactic(auto)]

ghost use Rattle.std.specs.Prelude.{◌≡◌};
ghost use Rattle.step_write.specs.Working.{SameBuffers};
ghost use Rattle.step_rule.specs.Rules.{machine_in};
ghost use Rattle.step_order.specs.Sure.{SureIn};
ghost use Rattle.step_turn.specs.Turning.{Lives};
ghost use Rattle.step_run.specs.Runs.{Runs};

use step_places::stepper::Stepper;
use step_turn::advance;
use step_write::{Scratch, Stop, Work};

// How many steps were made, how many bytes their events took, and whether the next one had no room.
// (Not `Shown` and a flag: `Shown` is part of a call's answer, which may be a question's refusal too; a run asks none.)
#[derive(Clone, Copy)]
pub struct Ran {
    pub steps: u64,
    pub length: usize,
    // The steps made count whether it is full or not.
    pub full: bool,
}

// At most so many steps from the state in the store; the events go to the beginning of their buffer. Where one is sure that the IDs of the linear
// machine's list are distinct, no step asks: they stay so. (A `for` that returns: each step begins in what the one before left, and `made` is answered.)
pub fn run(
    stepper: &Stepper<'_>,
    work: &mut Work<'_>,
    scratch: &mut Scratch,
    steps: u64,
    sure: bool,
) -> Ran
    requires { Lives (machine_in stepper.now) stepper.now stepper.now.image.bytes.now work.old.store.now work.old.header × SureIn stepper.now sure work.old.store.now work.old.header }
    ensures { Runs (machine_in stepper.now) stepper.now stepper.now.image.bytes.now steps work.old.store.now work.old.events.now work.old.header work.new.store.now work.new.events.now result × (SameBuffers work.old work.new × (work.new.at ≡ result.length)) }
{
    work.at = 0;
    for made in 0..steps {
        match advance(stepper, work, scratch, sure) {
            Ok(step) => {
                work.header = step.header;
                work.at = step.at;
            }
            Err(stop) => {
                return Ran {
                    steps: made,
                    length: work.at,
                    full: stop == Stop::NoRoom,
                };
            }
        }
    }
    Ran {
        steps,
        length: work.at,
        full: false,
    }
}
