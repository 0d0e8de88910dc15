// A place for what is written once the clauses are done.
ghost use Rattle.std.specs.Prelude.{◌≤◌};
ghost use Rattle.image_write_directory.specs.Outputs.{so_far, Unwritten};
ghost use Rattle.pass_step.specs.Stepping.{RoomAt, Reserves};

use image_write_directory::output::Output;

// A Substitute of `wanted` pairs unless the context is right, and a record of `own` bytes.
pub fn reserve(right: bool, wanted: usize, own: usize, output: &mut Output<'_, '_>)
    requires { (wanted ≤ 128) × ((own ≤ 4096) × RoomAt (so_far output.old)) }
    ensures { Reserves right wanted own output.old.writer.id (so_far output.old) (so_far output.new) × Unwritten output.old output.new }
{
    let w = output.writer.id;
    let at = output.writer.at;
    let count = output.count;
    if right {
        output.writer.at = at + own;
        output.count = count + 1;
        return;
    }
    let pairs = wanted * (8 + (w + (w + w)));
    output.writer.at = at + (2 + pairs + own);
    output.count = count + 2;
}
