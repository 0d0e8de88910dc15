// What records are written in, and how far it has come.
ghost use Rattle.std.specs.Prelude.{◌+◌, ◌≤◌, ◌<◌, ◌^◌};
ghost use Rattle.image_write_directory.specs.Outputs.{NotedIn};

use image_write_parts::writer::Writer;

// A writer, and beside it the length of each record, how many there are, and the max_id.
// (A slice and a count: the slice is lent, and the count goes on past its end.)
#[derive(Drop)]
pub struct Output<'o, 'l> {
    pub writer: Writer<'o>,
    pub lengths: &'l mut [usize],
    pub count: usize,
    pub max_id: u32,
}

// The record from `start` on is written up to the writer's place: its length is noted.
pub fn note(output: &mut Output<'_, '_>, start: usize)
    requires { (start ≤ output.old.writer.at) × (output.old.count + 1 < 2 ^ 64) }
    ensures { NotedIn output.old output.new start }
{
    let count = output.count;
    let length = output.writer.at - start;
    // (No `get_mut`: as at `put_byte`.)
    if count < output.lengths.len() {
        output.lengths[count] = length;
    }
    output.count = count + 1;
}
