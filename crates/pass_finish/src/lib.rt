// The end of linearization (questions 11 and 12): the records are written, and the header and the directory come before them.
#![tactic(auto)]

ghost use Rattle.std.specs.Prelude.{◌+◌, ◌-◌, ◌≤◌, ◌<◌, ◌≡◌, length, take, drop};
ghost use Rattle.std.proofs.lemmas.List.Edits.{sets};
ghost use Rattle.image_spec.specs.Layout.{body_at};
ghost use Rattle.pass_finish.specs.Finishing.{heading, progress_of, Clears, Finishable, Finishes, Same};
ghost use Rattle.image_write_directory.specs.Outputs.{so_far, Keeps};

use image_spec::{Accepted, Answer, Layout, Refusal};
use image_write_bytes::bytes::{clear, move_up};
use image_write_directory::directory::{put_directory, put_header};
use image_write_directory::output::Output;
use image_write_parts::writer::Writer;

// What was noted of the records that were written: the length of each, how many there are, and the max_id.
// (A slice and a count, as in `Output`: the slice may be longer.)
#[derive(Clone, Copy)]
pub struct Noted<'l> {
    pub lengths: &'l [usize],
    pub count: usize,
    pub max_id: u32,
}

// Sets the whole buffer to zero.
fn refuse(writer: &mut Writer<'_>, question: Refusal) -> Answer
    ensures { Clears question result writer.old.out.now writer.new.out.now × Same writer.old writer.new }
{
    clear(writer.out);
    Err(question)
}

// Moves the `size` bytes from `start` up by so many, and goes back to the beginning.
fn shift(writer: &mut Writer<'_>, start: usize, size: usize, by: usize)
    requires { start + (size + by) ≤ length writer.old.out.now }
    ensures { (writer.new.out.now ≡ sets writer.old.out.now (start + by) (take size (drop start writer.old.out.now))) × ((writer.new.at ≡ 0) × Same writer.old writer.new) }
{
    move_up(writer.out, start, size, by);
    writer.at = 0;
}

// Moves the records from `start` up to their place, and writes the header and the directory before them.
fn complete(writer: &mut Writer<'_>, noted: &Noted<'_>, layout: Layout, defs: usize, start: usize)
    requires { Finishable layout noted.now.lengths.now defs start (progress_of writer.old noted.now) × (body_at layout noted.now.count + (writer.old.at - start) ≤ length writer.old.out.now) }
    ensures { let body = body_at layout noted.now.count in
        let before = writer.old.out.now in
        let records = take (writer.old.at - start) (drop start before) in
        (writer.new.out.now ≡ sets (sets before body records) 0 (heading layout defs noted.now.max_id noted.now.count (take noted.now.count noted.now.lengths.now)))
        × Same writer.old writer.new }
{
    let count = noted.count;
    let size = writer.at - start;
    let body = layout.records_at(count);
    shift(writer, start, size, body - start);
    put_header(writer, layout, defs as u32, noted.max_id, count as u32);
    put_directory(writer, &noted.lengths[..count], layout.place, body);
}

// The records of d definitions were written from `start` on, and their lengths noted.
// (What was noted is only read, so lengths that others read too will do.)
pub fn finish_written(
    writer: &mut Writer<'_>,
    noted: &Noted<'_>,
    layout: Layout,
    defs: usize,
    start: usize,
) -> Answer
    requires { Finishable layout noted.now.lengths.now defs start (progress_of writer.old noted.now) }
    ensures { Finishes layout defs start (progress_of writer.old noted.now) noted.now.lengths.now writer.old.out.now writer.new.out.now result × Same writer.old writer.new }
{
    let max_id = noted.max_id;
    if Layout::MAX_ID < max_id {
        return refuse(writer, Refusal::Draws);
    }
    let length = layout.records_at(noted.count) + (writer.at - start);
    if writer.out.len() < length || layout.largest < length {
        return refuse(writer, Refusal::Room);
    }
    complete(writer, noted, layout, defs, start);
    Ok(Accepted { length, max_id })
}

// .. by what an output has noted.
pub fn finish(output: &mut Output<'_, '_>, layout: Layout, defs: usize, start: usize) -> Answer
    requires { Finishable layout output.old.lengths.now defs start (so_far output.old) }
    ensures { Finishes layout defs start (so_far output.old) output.old.lengths.now output.old.writer.out.now output.new.writer.out.now result × Keeps output.old output.new }
{
    // (The lengths are taken out while the writer is lent: two fields of one `&mut` are not lent at once, decision 101.)
    let lengths = std::mem::take(&mut output.lengths);
    let noted = Noted {
        lengths: &*lengths,
        count: output.count,
        max_id: output.max_id,
    };
    let answer = finish_written(&mut output.writer, &noted, layout, defs, start);
    output.lengths = lengths;
    answer
}
