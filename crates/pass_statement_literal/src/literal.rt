// literal.rs
ghost use Rattle.std.specs.Prelude.{◌≡◌};
ghost use Rattle.pass_step.specs.Stepping.{RoomAt, Workable};
ghost use Rattle.image_read_parts.specs.Recorded.{record_in};
ghost use Rattle.image_write_directory.specs.Outputs.{so_far};
ghost use Rattle.pass_step.specs.Outputs.{StepsFor};
ghost use Rattle.image_kinds.specs.declared.kinds.Kind.TheVariants.{Literal};

use image_write_directory::output::{Output, note};
use image_write_records::records::put_literal;
use pass_arrange::arrange::arrange_kept;
use pass_records::literal;
use pass_step::source::SourceRecord;
use pass_step::working::Working;
use syntax::context::{Chirality, ContextBinding};
use syntax::types::Ty;

// A Literal keeps what its next needs, and binds its var behind it.
pub fn linearize(
    source: &SourceRecord<'_>,
    free_vars_next: u64,
    here: &Working,
    output: &mut Output<'_, '_>,
) -> Working
    requires { (source.now.node.kind ≡ Literal) × (Workable here.now.context here.now.in_scope 1 × RoomAt (so_far output.old)) }
    ensures { StepsFor output.old output.new (record_in source.now.node) 0 free_vars_next here.now result }
{
    let statement = literal(&source.node);
    let new_context = here.context.filter_by_set(free_vars_next);
    // after a filter equal counts mean equal lists
    let right = new_context.len == here.context.len;
    arrange_kept(right, new_context, output);
    let start = output.writer.at;
    put_literal(&mut output.writer, statement.lit, statement.var);
    note(output, start);
    let var = statement.var;
    let binding = ContextBinding {
        var,
        chi: Chirality::Ext,
        ty: Ty::I64,
    };
    here.with(&new_context, binding)
}
