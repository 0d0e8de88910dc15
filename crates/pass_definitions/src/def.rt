// def.rs: one definition. Its parameters are the context of its body.
ghost use Rattle.std.specs.Prelude.{◌+◌, ◌∷◌, [], length};
ghost use Rattle.image_directory.specs.Images.{records_of};
ghost use Rattle.image_spec.specs.Shape.{flatten_defs};
ghost use Rattle.image_write_directory.specs.Outputs.{so_far};
ghost use Rattle.scope_spec.specs.Pairs.{masks_of};
ghost use Rattle.pass_work_spec.specs.Work.{work_defs};
ghost use Rattle.pass_walk.specs.Outputs.{LinearizedIn};
ghost use Rattle.pass_definitions.specs.Defining.{def_at, DefsAhead};

use image_directory::Frame;
use image_kinds::kinds::Kind;
use image_read_parts::record::RecordAt;
use image_write_directory::output::Output;
use pass_clause::clause::enter;
use pass_context::Held;
use pass_step::source::SourceRecord;
use pass_step::working::Working;
use pass_walk::source::Source;
use pass_walk::walk::statement;

// The definition at index i. The index behind it is answered.
pub fn definition(source: &Source<'_>, i: usize, output: &mut Output<'_, '_>) -> usize
    requires { let image = source.now.image in
        DefsAhead image.frame image.bytes.now (masks_of source.now.rows.now) output.old.writer.id 1 i (so_far output.old) (def_at (records_of image) i ∷ []) }
    ensures { let part = def_at (records_of source.now.image) i ∷ [] in
        let done = work_defs part output.old.max_id in
        LinearizedIn output.old output.new result (i + length (flatten_defs part)) (flatten_defs done.0) done.1 }
{
    let node = RecordAt {
        image: source.image,
        index: i,
        kind: Kind::Definition,
    };
    let none = Working {
        context: Held::empty(),
        in_scope: 0,
    };
    let body = enter(&SourceRecord { node }, false, &none, output);
    statement(source, Frame::MAX_SOURCE_DEPTH, i + 1, &body, output)
}
