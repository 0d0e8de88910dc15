// call.rs
ghost use Rattle.std.specs.Prelude.{◌≡◌};
ghost use Rattle.pass_step.specs.Stepping.{RoomAt, Workable};
ghost use Rattle.image_read_parts.specs.Recorded.{record_in};
ghost use Rattle.image_write_directory.specs.Outputs.{so_far};
ghost use Rattle.pass_step.specs.Outputs.{LeavesFor};
ghost use Rattle.image_kinds.specs.declared.kinds.Kind.TheVariants.{Call};

use image_write_directory::output::{Output, note};
use image_write_records::records::put_call;
use pass_arrange::arrange::arrange_args;
use pass_records::call;
use pass_step::fresh::freshen_unless;
use pass_step::source::SourceRecord;
use pass_step::working::Working;
use syntax::context::TypingContext;
use syntax::sets::IdSet;

// A Call wants its arguments for the context. Written it has none: they are the context then.
pub fn linearize(source: &SourceRecord<'_>, here: &Working, output: &mut Output<'_, '_>)
    requires { (source.now.node.kind ≡ Call) × (Workable here.now.context here.now.in_scope 0 × RoomAt (so_far output.old)) }
    ensures { LeavesFor output.old output.new (record_in source.now.node) 0 0 here.now }
{
    let statement = call(&source.node);
    let args = here.context.used_all(statement.args);
    // the context must consist of the arguments for the top-level function
    let right = here.context.len == args.len && here.context.same(args, TypingContext::empty());
    // where it does not, duplicated variables get fresh names
    let clashes = IdSet::empty();
    let freshened = freshen_unless(right, args, clashes, output.max_id);
    let fresh = freshened.context;
    arrange_args(right, fresh, args, output);
    let start = output.writer.at;
    put_call(&mut output.writer, statement.label);
    note(output, start);
    output.max_id = freshened.max_id.0;
}
