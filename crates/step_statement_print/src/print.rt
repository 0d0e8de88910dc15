// print.rs: the integer of var is shown with the newline byte.
ghost use Rattle.step_write.specs.Working.{Keeps};
ghost use Rattle.step_rule.specs.Rules.{Given, machine_in, MakesAs};

use image_kinds::kinds::Kind;
use image_read_parts::record::RecordAt;
use pass_records as records;
use step_lookup::integer_of;
use step_places::stepper::Stepper;
use step_stay::stay;
use step_write::{EventHead, Step, Stop, Work, state_of};

pub fn print(stepper: &Stepper<'_>, work: &mut Work<'_>) -> Result<Step, Stop>
    requires { Given stepper.now work.old 12 }
    ensures { MakesAs (machine_in stepper.now) stepper.now work.old work.new result × Keeps work.old work.new }
{
    let node = RecordAt {
        image: stepper.image,
        index: work.header.position as usize,
        kind: Kind::Print,
    };
    let statement = records::print(&node);
    let header = work.header;
    let state = state_of(work);
    let z = integer_of(&state, statement.var.id.0).ok_or(Stop::NoStep)?;
    let event = EventHead::of_payload(Kind::Print, u8::from(statement.newline), z.cast_unsigned());
    stay(work, header.position + 1, false, event)
}
