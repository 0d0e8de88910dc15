// program.rs: the definitions, one after the other. The max_id of each is where the next one begins.
ghost use Rattle.image_directory.specs.Images.{records_of};
ghost use Rattle.image_spec.specs.Shape.{flatten_defs};
ghost use Rattle.image_write_directory.specs.Outputs.{so_far};
ghost use Rattle.scope_check.specs.Definitions.{defs_in};
ghost use Rattle.scope_spec.specs.Pairs.{masks_of};
ghost use Rattle.pass_work_spec.specs.Work.{work_defs};
ghost use Rattle.pass_walk.specs.Outputs.{WritesIn};
ghost use Rattle.pass_definitions.specs.Defining.{DefsAhead};

use crate::def::definition;
use image_write_directory::output::Output;
use pass_walk::source::Source;

// Linearizes the definitions. (A definition may take more records than one, so `next` and `defs` are no range.)
pub fn definitions(source: &Source<'_>, defs: usize, output: &mut Output<'_, '_>)
    requires { DefsAhead source.now.image.frame source.now.image.bytes.now (masks_of source.now.rows.now) output.old.writer.id defs 0 (so_far output.old) (defs_in defs (records_of source.now.image)) }
    ensures { WritesIn output.old output.new (flatten_defs (work_defs (defs_in defs (records_of source.now.image)) output.old.max_id).0) (work_defs (defs_in defs (records_of source.now.image)) output.old.max_id).1 }
{
    let mut next = 0;
    for _ in 0..defs {
        next = definition(source, next, output);
    }
}
