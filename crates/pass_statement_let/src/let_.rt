// let.rs
ghost use Rattle.std.specs.Prelude.{◌≡◌};
ghost use Rattle.pass_step.specs.Stepping.{RoomAt, Workable};
ghost use Rattle.image_read_parts.specs.Recorded.{record_in};
ghost use Rattle.image_write_directory.specs.Outputs.{so_far};
ghost use Rattle.pass_step.specs.Outputs.{StepsFor};
ghost use Rattle.image_kinds.specs.declared.kinds.Kind.TheVariants.{Let};

use image_write_directory::output::{Output, note};
use image_write_records::records::put_let;
use pass_arrange::arrange::arrange;
use pass_records::let_record;
use pass_step::fresh::freshen_unless;
use pass_step::source::SourceRecord;
use pass_step::working::Working;
use syntax::context::{Chirality, ContextBinding};

// A Let keeps what its next needs, with its arguments behind it, and binds its var in their place.
pub fn linearize(
    source: &SourceRecord<'_>,
    free_vars_next: u64,
    here: &Working,
    output: &mut Output<'_, '_>,
) -> Working
    requires { (source.now.node.kind ≡ Let) × (Workable here.now.context here.now.in_scope 1 × RoomAt (so_far output.old)) }
    ensures { StepsFor output.old output.new (record_in source.now.node) 0 free_vars_next here.now result }
{
    let statement = let_record(&source.node);
    let new_context = here.context.filter_by_set(free_vars_next);
    let args = here.context.used_all(statement.args);
    let var = statement.var;
    let ty = statement.ty;
    let new_binding = ContextBinding {
        var,
        chi: Chirality::Prd,
        ty,
    };
    let right = here.context.len == new_context.len + args.len
        && here.context.same(new_context.context(), args);
    let fresh = freshen_unless(right, args, new_context.ids(), output.max_id);
    let freshened = fresh.context;
    arrange(right, false, freshened, args, new_context, output);
    let start = output.writer.at;
    put_let(&mut output.writer, var, ty, statement.tag, freshened);
    note(output, start);
    output.max_id = fresh.max_id.0;
    here.with(&new_context, new_binding)
}
