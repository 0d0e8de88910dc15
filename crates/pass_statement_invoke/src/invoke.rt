// invoke.rs
ghost use Rattle.std.specs.Prelude.{◌≡◌};
ghost use Rattle.pass_step.specs.Stepping.{RoomAt, Workable};
ghost use Rattle.image_read_parts.specs.Recorded.{record_in};
ghost use Rattle.image_write_directory.specs.Outputs.{so_far};
ghost use Rattle.pass_step.specs.Outputs.{LeavesFor};
ghost use Rattle.image_kinds.specs.declared.kinds.Kind.TheVariants.{Invoke};

use image_write_directory::output::{Output, note};
use image_write_records::records::put_invoke;
use pass_arrange::arrange::arrange_closure;
use pass_records::invoke;
use pass_step::fresh::freshen_unless;
use pass_step::source::SourceRecord;
use pass_step::working::Working;
use syntax::context::{Chirality, ContextBinding, TypingContext};
use syntax::sets::IdSet;

// An Invoke wants its arguments for the context, followed by its closure. Written it has no arguments: they are the context then.
pub fn linearize(source: &SourceRecord<'_>, here: &Working, output: &mut Output<'_, '_>)
    requires { (source.now.node.kind ≡ Invoke) × (Workable here.now.context here.now.in_scope 0 × RoomAt (so_far output.old)) }
    ensures { LeavesFor output.old output.new (record_in source.now.node) 0 0 here.now }
{
    let statement = invoke(&source.node);
    // the context must consist of the arguments for the method ...
    let args = here.context.used_all(statement.args);
    // ... followed by the variable of the closure
    let var = here.context.used(statement.var);
    let ty = statement.ty;
    let closure = ContextBinding {
        var,
        chi: Chirality::Cns,
        ty,
    };
    let right = here.context.len == args.len + 1
        && here
            .context
            .same(args, TypingContext::empty().push(closure));
    let clashes = IdSet::empty().add(var.id);
    let freshened = freshen_unless(right, args, clashes, output.max_id);
    let fresh = freshened.context;
    arrange_closure(right, fresh, args, closure, output);
    let start = output.writer.at;
    put_invoke(&mut output.writer, var, statement.tag, ty);
    note(output, start);
    output.max_id = freshened.max_id.0;
}
