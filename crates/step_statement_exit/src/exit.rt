// exit.rs: the value of var is shown, and the run ends.
ghost use Rattle.step_write.specs.Working.{Keeps};
ghost use Rattle.step_rule.specs.Rules.{Given, machine_in, MakesAs};

use image_kinds::kinds::Kind;
use image_read_parts::record::RecordAt;
use pass_records as records;
use step_entries::slot_of;
use step_gather::shown_payload;
use step_header::heap::Heap;
use step_places::stepper::Stepper;
use step_stay::stay;
use step_write::{EventHead, Step, Stop, Work, state_of};

pub fn exit(stepper: &Stepper<'_>, work: &mut Work<'_>) -> Result<Step, Stop>
    requires { Given stepper.now work.old 13 }
    ensures { MakesAs (machine_in stepper.now) stepper.now work.old work.new result × Keeps work.old work.new }
{
    let node = RecordAt {
        image: stepper.image,
        index: work.header.position as usize,
        kind: Kind::Exit,
    };
    let statement = records::exit(&node);
    let header = work.header;
    let state = state_of(work);
    let value = slot_of(&state, statement.var.id.0).ok_or(Stop::NoStep)?;
    let heap = Heap {
        store: state.store,
        count: state.header.heap as usize,
    };
    let payload = shown_payload(&heap, value);
    let event = EventHead::of_payload(Kind::Exit, value.sort as u8, payload);
    stay(work, header.position, true, event)
}
