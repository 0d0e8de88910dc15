// The statement at hand, by its kind.
// (A function for each statement, in its file of the Rust's name, and no trait over them: each asks of its own kind.)
ghost use Rattle.std.specs.Prelude.{ℕ, length};
ghost use Rattle.image_kinds.specs.Codes.{code_of};
ghost use Rattle.image_places_spec.specs.Views.{binders};
ghost use Rattle.image_read_parts.specs.Recorded.{record_in};
ghost use Rattle.image_write_directory.specs.Outputs.{so_far};
ghost use Rattle.pass_entries.specs.Masks.{InPlaces};
ghost use Rattle.pass_context.specs.Holding.{work_of};
ghost use Rattle.pass_step.specs.Stepping.{RoomAt, Workable};
ghost use Rattle.pass_step.specs.Outputs.{StepsFor, LeavesFor, OpensFor};
ghost use Rattle.pass_dispatch.specs.Choices.{HasClauses, Proceeds, Settles};

use image_kinds::kinds::Kind;
use image_write_directory::output::Output;
use pass_context::Held;
use pass_statement_call::call;
use pass_statement_create::create;
use pass_statement_exit::exit;
use pass_statement_ifc::ifc;
use pass_statement_invoke::invoke;
use pass_statement_let::let_;
use pass_statement_literal::literal;
use pass_statement_op::op;
use pass_statement_print::print;
use pass_statement_switch::switch;
use pass_step::source::SourceRecord;
use pass_step::working::{Opened, Working};
use scope_spec::FreeVars;

// What comes before the clauses of a Switch or a Create. (Here and below the last arm is `_`: named, it would need one more arm that cannot come.)
pub fn open(
    source: &SourceRecord<'_>,
    free_vars: FreeVars,
    context: &Held,
    output: &mut Output<'_, '_>,
) -> Opened
    requires { HasClauses (code_of source.now.node.kind) × RoomAt (so_far output.old) }
    ensures { OpensFor output.old output.new (record_in source.now.node) free_vars.clauses free_vars.next context.now result }
{
    match source.node.kind {
        Kind::Switch => switch::open(source, free_vars.clauses, context, output),
        _ => create::open(source, free_vars, context, output),
    }
}

// The step of a statement with one body and no clauses: Let, Literal, Op or PrintI64. There is room for what it binds.
pub fn proceed(
    source: &SourceRecord<'_>,
    free_vars: FreeVars,
    here: &Working,
    output: &mut Output<'_, '_>,
) -> Working
    requires { Proceeds (code_of source.now.node.kind) × (InPlaces (work_of here.now.context) × (Workable here.now.context here.now.in_scope (length (binders (record_in source.now.node))) × RoomAt (so_far output.old))) }
    ensures { StepsFor output.old output.new (record_in source.now.node) free_vars.clauses free_vars.next here.now result }
{
    let next = free_vars.next;
    match source.node.kind {
        Kind::Let => let_::linearize(source, next, here, output),
        Kind::Literal => literal::linearize(source, next, here, output),
        Kind::Op => op::linearize(source, next, here, output),
        _ => print::linearize(source, next, here, output),
    }
}

// The step of a statement that leaves the context as it is, and has no clauses: Call, Invoke, IfC or Exit. It looks at neither mask, so it is the
// step for any two masks.
pub fn settle(source: &SourceRecord<'_>, here: &Working, output: &mut Output<'_, '_>)
    requires { Settles (code_of source.now.node.kind) × (Workable here.now.context here.now.in_scope 0 × RoomAt (so_far output.old)) }
    ensures { (clauses next : ℕ) → LeavesFor output.old output.new (record_in source.now.node) clauses next here.now }
{
    match source.node.kind {
        Kind::Call => call::linearize(source, here, output),
        Kind::Invoke => invoke::linearize(source, here, output),
        Kind::IfC => ifc::linearize(source, here, output),
        _ => exit::linearize(source, here, output),
    }
}
