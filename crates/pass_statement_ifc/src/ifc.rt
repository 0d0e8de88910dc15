// ifc.rs
ghost use Rattle.std.specs.Prelude.{◌≡◌};
ghost use Rattle.pass_step.specs.Stepping.{RoomAt, Workable};
ghost use Rattle.image_read_parts.specs.Recorded.{record_in};
ghost use Rattle.image_write_directory.specs.Outputs.{so_far};
ghost use Rattle.pass_step.specs.Outputs.{LeavesFor};
ghost use Rattle.image_kinds.specs.declared.kinds.Kind.TheVariants.{IfC};

use image_write_directory::output::{Output, note};
use image_write_records::records::put_ifc;
use pass_records::ifc;
use pass_step::source::SourceRecord;
use pass_step::working::Working;

// An IfC inserts no Substitute: it binds nothing, and each branch has its own.
pub fn linearize(source: &SourceRecord<'_>, here: &Working, output: &mut Output<'_, '_>)
    requires { (source.now.node.kind ≡ IfC) × (Workable here.now.context here.now.in_scope 0 × RoomAt (so_far output.old)) }
    ensures { LeavesFor output.old output.new (record_in source.now.node) 0 0 here.now }
{
    let statement = ifc(&source.node);
    let fst = here.context.used(statement.fst);
    let snd = statement.snd.map(|x| here.context.used(x));
    let start = output.writer.at;
    put_ifc(&mut output.writer, statement.sort, fst, snd);
    note(output, start);
}
