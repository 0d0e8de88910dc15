// print.rs
ghost use Rattle.std.specs.Prelude.{◌≡◌};
ghost use Rattle.pass_entries.specs.Masks.{InPlaces};
ghost use Rattle.pass_context.specs.Holding.{work_of};
ghost use Rattle.pass_step.specs.Stepping.{RoomAt, Workable};
ghost use Rattle.image_read_parts.specs.Recorded.{record_in};
ghost use Rattle.image_write_directory.specs.Outputs.{so_far};
ghost use Rattle.pass_step.specs.Outputs.{StepsFor};
ghost use Rattle.image_kinds.specs.declared.kinds.Kind.TheVariants.{Print};

use image_write_directory::output::{Output, note};
use image_write_records::records::put_print;
use pass_arrange::arrange::arrange_kept;
use pass_records::print;
use pass_step::source::SourceRecord;
use pass_step::working::Working;

// A PrintI64 keeps its var and what its next needs, and binds nothing.
pub fn linearize(
    source: &SourceRecord<'_>,
    free_vars_next: u64,
    here: &Working,
    output: &mut Output<'_, '_>,
) -> Working
    requires { (source.now.node.kind ≡ Print) × (InPlaces (work_of here.now.context) × (Workable here.now.context here.now.in_scope 0 × RoomAt (so_far output.old))) }
    ensures { StepsFor output.old output.new (record_in source.now.node) 0 free_vars_next here.now result }
{
    let statement = print(&source.node);
    // the variable is not consumed, so it is kept
    let free_vars = here
        .context
        .with_places(free_vars_next, statement.var.id, statement.var.id);
    let new_context = here.context.filter_by_set(free_vars);
    // after a filter equal counts mean equal lists
    let right = new_context.len == here.context.len;
    arrange_kept(right, new_context, output);
    let var = here.context.used(statement.var);
    let start = output.writer.at;
    put_print(&mut output.writer, statement.newline, var);
    note(output, start);
    Working {
        context: new_context,
        in_scope: here.in_scope,
    }
}
