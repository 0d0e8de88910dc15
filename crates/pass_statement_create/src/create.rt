// create.rs
ghost use Rattle.std.specs.Prelude.{◌≤◌, ◌≡◌};
ghost use Rattle.syntax.specs.Arrays.{context_of};
ghost use Rattle.pass_work_spec.specs.Work.{moved_behind, respelled_unless};
ghost use Rattle.pass_context.specs.Holding.{work_of, HoldsWork};
ghost use Rattle.pass_entries.specs.Masks.{kept_by_mask};
ghost use Rattle.pass_step.specs.Stepping.{RoomAt, Workable, OpenedAs};
ghost use Rattle.image_read_parts.specs.Recorded.{record_in};
ghost use Rattle.image_write_directory.specs.Outputs.{so_far};
ghost use Rattle.pass_step.specs.Outputs.{StepsFor, OpensFor, opened_to};
ghost use Rattle.image_kinds.specs.declared.kinds.Kind.TheVariants.{Create};

use image_kinds::kinds::Kind;
use image_write_directory::output::{Output, note};
use image_write_records::records::put_create;
use pass_arrange::arrange::arrange;
use pass_context::Held;
use pass_records::create;
use pass_step::fresh::freshen_unless;
use pass_step::reserve::reserve;
use pass_step::source::SourceRecord;
use pass_step::working::{Opened, Working};
use scope_spec::FreeVars;
use syntax::context::{Chirality, ContextBinding, TypingContext};

// The environment: what the clauses need, from the context with the first bindings, as many as the next context has, moved behind the rest.
fn environment(context: &Held, next: usize, free_vars_clauses: u64) -> Held
    requires { next ≤ context.now.len }
    ensures { HoldsWork result (kept_by_mask free_vars_clauses (moved_behind next (work_of context.now))) }
{
    let moved = context.move_behind(next);
    moved.filter_by_set(free_vars_clauses)
}

// The clauses have the environment.
pub fn open(
    source: &SourceRecord<'_>,
    free_vars: FreeVars,
    context: &Held,
    output: &mut Output<'_, '_>,
) -> Opened
    requires { (source.now.node.kind ≡ Create) × RoomAt (so_far output.old) }
    ensures { OpensFor output.old output.new (record_in source.now.node) free_vars.clauses free_vars.next context.now result }
{
    let context_next = context.filter_by_set(free_vars.next);
    let closure_environment = environment(context, context_next.len, free_vars.clauses);
    let kept = context_next.len + closure_environment.len;
    let right = context.len == kept
        && context.same(context_next.context(), closure_environment.context());
    let w = output.writer.id;
    let own = Kind::Create.fixed(w) + (3 + closure_environment.len * (6 + (w + w)));
    reserve(right, kept, own, output);
    Opened {
        context: closure_environment,
        right,
    }
}

// The context of the next, under its fresh names where a Substitute is inserted: from there on uses take them.
fn renamed(right: bool, context_next: Held, names: TypingContext) -> Held
    requires { names.len ≡ context_next.len }
    ensures { HoldsWork result (respelled_unless right (work_of context_next) (context_of names)) }
{
    if right {
        return context_next;
    }
    context_next.respelled(names)
}

// The clauses are done: a Substitute where the context is not right, and the Create with its environment.
pub fn linearize(
    source: &SourceRecord<'_>,
    free_vars: FreeVars,
    here: &Working,
    opened: &Opened,
    output: &mut Output<'_, '_>,
) -> Working
    requires { (source.now.node.kind ≡ Create)
        × (Workable here.now.context here.now.in_scope 1 × (OpenedAs (record_in source.now.node) free_vars.clauses free_vars.next (work_of here.now.context) (opened_to opened.now output.old) × RoomAt (so_far output.old))) }
    ensures { StepsFor output.old output.new (record_in source.now.node) free_vars.clauses free_vars.next here.now result }
{
    let statement = create(&source.node);
    let captured = opened.context;
    let right = opened.right;
    let context_next = here.context.filter_by_set(free_vars.next);
    let next = context_next.context();
    let freshened = freshen_unless(right, next, captured.ids(), output.max_id);
    let fresh = freshened.context;
    arrange(right, true, fresh, next, captured, output);
    let var = statement.var;
    let ty = statement.ty;
    let start = output.writer.at;
    put_create(
        &mut output.writer,
        var,
        ty,
        captured.context(),
        statement.clauses,
    );
    note(output, start);
    output.max_id = freshened.max_id.0;
    let chi = Chirality::Cns;
    let binding = ContextBinding { var, chi, ty };
    here.with(&renamed(right, context_next, fresh), binding)
}
