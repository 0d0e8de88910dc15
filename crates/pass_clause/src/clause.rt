// clause.rs and def.rs: what stands before a body, a clause's or a definition's.
ghost use Rattle.std.specs.Prelude.{length};
ghost use Rattle.image_kinds.specs.Codes.{code_of};
ghost use Rattle.image_read_parts.specs.Parts.{list_of};
ghost use Rattle.image_read_parts.specs.Recorded.{record_in};
ghost use Rattle.image_write_directory.specs.Outputs.{so_far};
ghost use Rattle.pass_context.specs.Holding.{work_of};
ghost use Rattle.pass_step.specs.Stepping.{RoomAt, Workable};
ghost use Rattle.pass_step.specs.Outputs.{StepsIn};
ghost use Rattle.pass_clause.specs.Entering.{Enters, entering};

use image_write_directory::output::{Output, note};
use image_write_records::records::put_headed;
use pass_records::named;
use pass_step::source::SourceRecord;
use pass_step::working::Working;

// A clause or a definition is written as it is, and its parameters join the context: those of a Create's clauses come before it,
// all others behind it; `before` is that one question, and both ways take the same.
pub fn enter(
    source: &SourceRecord<'_>,
    before: bool,
    here: &Working,
    output: &mut Output<'_, '_>,
) -> Working
    requires { Enters (code_of source.now.node.kind) × (Workable here.now.context here.now.in_scope (length (list_of (record_in source.now.node))) × RoomAt (so_far output.old)) }
    ensures { StepsIn output.old output.new result (entering (record_in source.now.node) before (work_of here.now.context) here.now.in_scope output.old.max_id) }
{
    let record = named(&source.node);
    let params = record.list;
    let start = output.writer.at;
    put_headed(&mut output.writer, source.node.kind, record.name, params);
    note(output, start);
    let in_scope = here.in_scope + (params.len as u8);
    let context = if before {
        here.context.under(here.in_scope, params)
    } else {
        here.context.owns(here.in_scope, params)
    };
    Working { context, in_scope }
}
