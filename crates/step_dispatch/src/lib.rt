// The rule of the statement at hand, by its kind.
#![tactic(auto)]

ghost use Rattle.step_write.specs.Working.{Keeps};
ghost use Rattle.std.specs.Prelude.{◌<◌};
ghost use Rattle.step_spec.specs.Located.{source_machine, linear_machine};
ghost use Rattle.step_rule.specs.Rules.{Given, machine_in, MakesAs};
ghost use Rattle.image_kinds.specs.Codes.{code_of};

use image_kinds::kinds::Kind;
use step_places::stepper::Stepper;
use step_spec::MachineKind;
use step_statement_call::call;
use step_statement_create::create;
use step_statement_exit::exit::exit;
use step_statement_ifc::ifc::ifc;
use step_statement_invoke::invoke;
use step_statement_let::let_;
use step_statement_literal::literal::literal;
use step_statement_op::op::op;
use step_statement_print::print::print;
use step_statement_substitute::substitute;
use step_statement_switch::switch;
use step_write::{Scratch, Step, Stop, Work};

// `scratch` and `kind`, here and below: bytes that rules are lent, and what chooses the rule.
// The statements whose rules are the source machine's alone. (It has none for a Substitute. Under `_`, here and below, is what has no rule or another function's.)
fn source(
    stepper: &Stepper<'_>,
    work: &mut Work<'_>,
    scratch: &mut Scratch,
    kind: Kind,
) -> Result<Step, Stop>
    requires { Given stepper.now work.old (code_of kind) × (code_of kind < 8) }
    ensures { MakesAs source_machine stepper.now work.old work.new result × Keeps work.old work.new }
{
    match kind {
        Kind::Call => call::source(stepper, work, scratch),
        Kind::Let => let_::source(stepper, work, scratch),
        Kind::Switch => switch::source(stepper, work, scratch),
        Kind::Create => create::source(stepper, work),
        Kind::Invoke => invoke::source(stepper, work, scratch),
        _ => Err(Stop::NoStep),
    }
}

// The statements whose rules are the linear machine's alone.
fn linear(
    stepper: &Stepper<'_>,
    work: &mut Work<'_>,
    scratch: &mut Scratch,
    kind: Kind,
) -> Result<Step, Stop>
    requires { Given stepper.now work.old (code_of kind) × (code_of kind < 8) }
    ensures { MakesAs linear_machine stepper.now work.old work.new result × Keeps work.old work.new }
{
    match kind {
        Kind::Substitute => substitute::linear(stepper, work, scratch),
        Kind::Call => call::linear(stepper, work, scratch),
        Kind::Let => let_::linear(stepper, work, scratch),
        Kind::Switch => switch::linear(stepper, work, scratch),
        Kind::Create => create::linear(stepper, work, scratch),
        Kind::Invoke => invoke::linear(stepper, work, scratch),
        _ => Err(Stop::NoStep),
    }
}

// The step of the statement at the header's position, of this kind.
pub fn statement(
    stepper: &Stepper<'_>,
    work: &mut Work<'_>,
    scratch: &mut Scratch,
    kind: Kind,
) -> Result<Step, Stop>
    requires { Given stepper.now work.old (code_of kind) }
    ensures { MakesAs (machine_in stepper.now) stepper.now work.old work.new result × Keeps work.old work.new }
{
    match kind {
        Kind::Literal => literal(stepper, work, scratch),
        Kind::Op => op(stepper, work, scratch),
        Kind::IfC => ifc(stepper, work),
        Kind::Print => print(stepper, work),
        Kind::Exit => exit(stepper, work),
        // No statement has such a record.
        Kind::Definition | Kind::Clause => Err(Stop::NoStep),
        _ => match stepper.machine {
            MachineKind::Source => source(stepper, work, scratch, kind),
            MachineKind::Linear => linear(stepper, work, scratch, kind),
        },
    }
}
