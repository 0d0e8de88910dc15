// literal.rs: the integer, under var.
ghost use Rattle.step_write.specs.Working.{Keeps};
ghost use Rattle.step_rule.specs.Rules.{Given, machine_in, MakesAs};

use image_kinds::kinds::Kind;
use image_read_parts::record::RecordAt;
use pass_records as records;
use step_bind::bind;
use step_places::stepper::Stepper;
use step_write::{Scratch, Step, Stop, Work};

pub fn literal(
    stepper: &Stepper<'_>,
    work: &mut Work<'_>,
    scratch: &mut Scratch,
) -> Result<Step, Stop>
    requires { Given stepper.now work.old 8 }
    ensures { MakesAs (machine_in stepper.now) stepper.now work.old work.new result × Keeps work.old work.new }
{
    let node = RecordAt {
        image: stepper.image,
        index: work.header.position as usize,
        kind: Kind::Literal,
    };
    let statement = records::literal(&node);
    bind(
        stepper.machine,
        work,
        scratch,
        Kind::Literal,
        statement.var.id.0,
        statement.lit.cast_unsigned(),
    )
}
