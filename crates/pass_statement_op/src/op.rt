// op.rs
ghost use Rattle.std.specs.Prelude.{◌≡◌};
ghost use Rattle.pass_entries.specs.Masks.{InPlaces};
ghost use Rattle.pass_context.specs.Holding.{work_of};
ghost use Rattle.pass_step.specs.Stepping.{RoomAt, Workable};
ghost use Rattle.image_read_parts.specs.Recorded.{record_in};
ghost use Rattle.image_write_directory.specs.Outputs.{so_far};
ghost use Rattle.pass_step.specs.Outputs.{StepsFor};
ghost use Rattle.image_kinds.specs.declared.kinds.Kind.TheVariants.{Op};

use image_write_directory::output::{Output, note};
use image_write_records::records::put_op;
use pass_arrange::arrange::arrange_kept;
use pass_records::op;
use pass_step::source::SourceRecord;
use pass_step::working::Working;
use syntax::context::{Chirality, ContextBinding};
use syntax::types::Ty;

// An Op keeps its inputs and what its next needs, and binds its var behind them.
pub fn linearize(
    source: &SourceRecord<'_>,
    free_vars_next: u64,
    here: &Working,
    output: &mut Output<'_, '_>,
) -> Working
    requires { (source.now.node.kind ≡ Op) × (InPlaces (work_of here.now.context) × (Workable here.now.context here.now.in_scope 1 × RoomAt (so_far output.old))) }
    ensures { StepsFor output.old output.new (record_in source.now.node) 0 free_vars_next here.now result }
{
    let statement = op(&source.node);
    // the input variables are not consumed, so they are kept
    let free_vars = here
        .context
        .with_places(free_vars_next, statement.fst.id, statement.snd.id);
    let new_context = here.context.filter_by_set(free_vars);
    let var = statement.var;
    let new_binding = ContextBinding {
        var,
        chi: Chirality::Ext,
        ty: Ty::I64,
    };
    // after a filter equal counts mean equal lists
    let right = new_context.len == here.context.len;
    arrange_kept(right, new_context, output);
    let fst = here.context.used(statement.fst);
    let snd = here.context.used(statement.snd);
    let operator = statement.op;
    let start = output.writer.at;
    put_op(&mut output.writer, fst, operator, snd, var);
    note(output, start);
    here.with(&new_context, new_binding)
}
