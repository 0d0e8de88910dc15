// switch.rs
ghost use Rattle.std.specs.Prelude.{◌≡◌, ◌+◌, ◌<◌, ◌^◌};
ghost use Rattle.syntax.specs.Arrays.{set_of};
ghost use Rattle.syntax.specs.declared.context.Chirality.TheVariants.{Prd};
ghost use Rattle.model.specs.Rules.{bind, fresh_var_unless};
ghost use Rattle.pass_work_spec.specs.Work.{used};
ghost use Rattle.pass_context.specs.Holding.{work_of};
ghost use Rattle.pass_step.specs.Stepping.{RoomAt, Workable, OpenedAs};
ghost use Rattle.pass_statement_switch.specs.Drawing.{FreshVarIs};
ghost use Rattle.image_read_parts.specs.Recorded.{record_in};
ghost use Rattle.image_write_directory.specs.Outputs.{so_far};
ghost use Rattle.pass_step.specs.Outputs.{LeavesFor, OpensFor, opened_to};
ghost use Rattle.image_kinds.specs.declared.kinds.Kind.TheVariants.{Switch};

use image_kinds::kinds::Kind;
use image_write_directory::output::{Output, note};
use image_write_records::records::put_switch;
use pass_arrange::arrange::arrange_one;
use pass_context::Held;
use pass_records::switch;
use pass_step::reserve::reserve;
use pass_step::source::SourceRecord;
use pass_step::working::{Opened, Working};
use syntax::context::{Chirality, ContextBinding, TypingContext};
use syntax::names::{Identifier, VarId};
use syntax::sets::IdSet;
use syntax::types::Ty;

// The variable that is matched on, as the last of the wanted list.
// (`var` and `ty`: as the record has them. The binding of both, with its chirality, is what is answered.)
fn matched(context: &Held, var: Identifier, ty: Ty) -> ContextBinding
    ensures { result ≡ bind (used (work_of context.now) var) Prd ty }
{
    ContextBinding {
        var: context.used(var),
        chi: Chirality::Prd,
        ty,
    }
}

// The clauses have what they need, without the variable that is matched on.
pub fn open(
    source: &SourceRecord<'_>,
    free_vars_clauses: u64,
    context: &Held,
    output: &mut Output<'_, '_>,
) -> Opened
    requires { (source.now.node.kind ≡ Switch) × RoomAt (so_far output.old) }
    ensures { OpensFor output.old output.new (record_in source.now.node) free_vars_clauses 0 context.now result }
{
    let statement = switch(&source.node);
    let new_context = context.filter_by_set(free_vars_clauses);
    let ty = statement.ty;
    let xtor = matched(context, statement.var, ty);
    let right = context.len == new_context.len + 1
        && context.same(new_context.context(), TypingContext::empty().push(xtor));
    let w = output.writer.id;
    reserve(
        right,
        new_context.len + 1,
        Kind::Switch.fixed(w) + 1,
        output,
    );
    Opened {
        context: new_context,
        right,
    }
}

// A variable under the name that it has from here on, and the max_id then.
// (Beside `Freshened`, which is of a context: each has its own definition, and both are taken apart where they come.)
#[derive(Clone, Copy)]
pub struct FreshVar {
    pub binding: ContextBinding,
    pub max_id: u32,
}

// A fresh name for the variable if it is duplicated, where the context is not right.
fn fresh_var(right: bool, binding: ContextBinding, clashes: IdSet, max_id: u32) -> FreshVar
    requires { max_id + 256 < 2 ^ 32 }
    ensures { FreshVarIs result (fresh_var_unless right binding (set_of clashes) max_id) }
{
    if right || !clashes.contains(binding.var.id) {
        return FreshVar { binding, max_id };
    }
    let var = Identifier::fresh(VarId(max_id), binding.var.name);
    FreshVar {
        binding: ContextBinding { var, ..binding },
        max_id: var.id.0,
    }
}

// The clauses are done: a Substitute where the context is not right, and the Switch.
pub fn linearize(
    source: &SourceRecord<'_>,
    free_vars_clauses: u64,
    here: &Working,
    opened: &Opened,
    output: &mut Output<'_, '_>,
)
    requires { (source.now.node.kind ≡ Switch)
        × (Workable here.now.context here.now.in_scope 0 × (OpenedAs (record_in source.now.node) free_vars_clauses 0 (work_of here.now.context) (opened_to opened.now output.old) × RoomAt (so_far output.old))) }
    ensures { LeavesFor output.old output.new (record_in source.now.node) free_vars_clauses 0 here.now }
{
    let statement = switch(&source.node);
    let new_context = opened.context;
    let right = opened.right;
    let ty = statement.ty;
    let xtor = matched(&here.context, statement.var, ty);
    let fresh = fresh_var(right, xtor, new_context.ids(), output.max_id);
    let binding = fresh.binding;
    arrange_one(right, new_context, binding, xtor, output);
    let start = output.writer.at;
    put_switch(&mut output.writer, binding.var, ty, statement.clauses);
    note(output, start);
    output.max_id = fresh.max_id;
}
