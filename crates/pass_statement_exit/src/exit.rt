// exit.rs, and mod.rs: exit statements need not be changed.
ghost use Rattle.std.specs.Prelude.{◌≡◌};
ghost use Rattle.pass_step.specs.Stepping.{RoomAt, Workable};
ghost use Rattle.image_read_parts.specs.Recorded.{record_in};
ghost use Rattle.image_write_directory.specs.Outputs.{so_far};
ghost use Rattle.pass_step.specs.Outputs.{LeavesFor};
ghost use Rattle.image_kinds.specs.declared.kinds.Kind.TheVariants.{Exit};

use image_write_directory::output::{Output, note};
use image_write_records::records::put_exit;
use pass_records::exit;
use pass_step::source::SourceRecord;
use pass_step::working::Working;

// An Exit inserts no Substitute, whatever the context holds. Its var is written as the context has it.
pub fn linearize(source: &SourceRecord<'_>, here: &Working, output: &mut Output<'_, '_>)
    requires { (source.now.node.kind ≡ Exit) × (Workable here.now.context here.now.in_scope 0 × RoomAt (so_far output.old)) }
    ensures { LeavesFor output.old output.new (record_in source.now.node) 0 0 here.now }
{
    let statement = exit(&source.node);
    let var = here.context.used(statement.var);
    let start = output.writer.at;
    put_exit(&mut output.writer, var);
    note(output, start);
}
