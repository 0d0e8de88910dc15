// A step that leaves cells and environment as they are: what IfC, PrintI64 and Exit of either machine write.
#![tactic(auto)]

ghost use Rattle.step_write.specs.Working.{Fit, Keeps};
ghost use Rattle.step_write.specs.Writing.{head_bytes};
ghost use Rattle.step_stay.specs.Staying.{Stays};

use step_header::Header;
use step_write::{EventHead, Step, Stop, Work, finish};

// `ended`: the field of the header that is written, of which both values lead to the same step but for that byte.
pub fn stay(work: &mut Work<'_>, position: u32, ended: bool, event: EventHead) -> Result<Step, Stop>
    requires { Fit work.old }
    ensures { Stays work.old.store.now work.old.events.now work.old.header work.old.at position ended (head_bytes event) work.new.store.now work.new.events.now result × Keeps work.old work.new }
{
    let next = Header {
        position,
        ended,
        stopped: false,
        ..work.header
    };
    let end = 64 + 16 * (work.header.heap as usize + work.header.entries as usize);
    finish(work, &[], event, next, end, 0)
}
