// op.rs: what the operator gives of two integers, under var.
ghost use Rattle.step_write.specs.Working.{Keeps};
ghost use Rattle.step_rule.specs.Rules.{Given, machine_in, MakesAs};

use image_kinds::kinds::Kind;
use image_read_parts::record::RecordAt;
use pass_records as records;
use step_arithmetic::operation::evaluate;
use step_bind::bind;
use step_lookup::integer_of;
use step_places::stepper::Stepper;
use step_write::{Scratch, Step, Stop, Work, state_of};

pub fn op(stepper: &Stepper<'_>, work: &mut Work<'_>, scratch: &mut Scratch) -> Result<Step, Stop>
    requires { Given stepper.now work.old 9 }
    ensures { MakesAs (machine_in stepper.now) stepper.now work.old work.new result × Keeps work.old work.new }
{
    let node = RecordAt {
        image: stepper.image,
        index: work.header.position as usize,
        kind: Kind::Op,
    };
    let statement = records::op(&node);
    let state = state_of(work);
    let a = integer_of(&state, statement.fst.id.0).ok_or(Stop::NoStep)?;
    let b = integer_of(&state, statement.snd.id.0).ok_or(Stop::NoStep)?;
    let z = evaluate(statement.op, a, b).ok_or(Stop::NoStep)?;
    bind(
        stepper.machine,
        work,
        scratch,
        Kind::Op,
        statement.var.id.0,
        z.cast_unsigned(),
    )
}
