// Rows of marks by ID: what is used and not bound is marked, and the marked IDs are written in ascending order.
#![tactic(auto)]

ghost use Rattle.std.specs.Prelude.{◌≡◌, ◌+◌, ◌*◌, ◌<◌, ◌^◌, length};
ghost use Rattle.syntax.specs.Arrays.{set_of};
ghost use Rattle.image_spec.specs.Parse.{each, field};
ghost use Rattle.image_write_parts.specs.Written.{Wrote};
ghost use Rattle.scope_spec.specs.Marking.{mark_one_lem, mark_all_lem, marked_from};
ghost use Rattle.scope_spec.specs.Calls.{set_bytes};

use image_write_parts::writer::Writer;
use syntax::names::VarId;
use syntax::sets::IdSet;

// A variable is used: it is marked, if it is not bound. (No `get_mut`: once its borrow is over, a proof knows the row's length, and no byte.)
pub fn mark_one(row: &mut [u8], bound: IdSet, id: VarId)
    ensures { row.new ≡ mark_one_lem (set_of bound) id row.old }
{
    if bound.contains(id) {
        return;
    }
    let at = id.0 as usize;
    if at < row.len() {
        row[at] = 1;
    }
}

// Marks what is used and not bound, of a set.
pub fn mark_all(row: &mut [u8], bound: IdSet, set: IdSet)
    ensures { row.new ≡ mark_all_lem (set_of bound) (set_of set) row.old }
{
    for id in &set.ids[..set.len] {
        mark_one(row, bound, *id);
    }
}

// How many IDs are marked. (That there are fewer than 2^32 is asked, here and below: a lent slice has no field, and an array of 65,536 would ask more.)
pub fn count_marked(row: &[u8]) -> u32
    requires { length row.now < 2 ^ 32 }
    ensures { result ≡ length (marked_from 0 row.now) }
{
    // (By index, here and below: over an iterator the same loop took half as many instructions again, and each set of an annotation goes over its
    // 65,536 marks twice.)
    let mut marked: u32 = 0;
    for i in 0..row.len() {
        if row[i] != 0 {
            marked += 1;
        }
    }
    marked
}

// Writes the marked IDs in ascending order.
pub fn put_marked(row: &[u8], writer: &mut Writer<'_>)
    requires { (length row.now < 2 ^ 32) × (writer.old.at + 8 * length row.now < 2 ^ 64) }
    ensures { Wrote writer.old writer.new (each (λ (x : VarId). field writer.old.id x.0) (marked_from 0 row.now)) }
{
    let width = writer.id;
    for i in 0..row.len() {
        if row[i] != 0 {
            writer.number(width, i as u32);
        }
    }
}

// Writes the set of the marked IDs: its count, then the IDs.
pub fn put_set(row: &[u8], writer: &mut Writer<'_>)
    requires { (length row.now < 2 ^ 32) × (writer.old.at + (2 + 8 * length row.now) < 2 ^ 64) }
    ensures { Wrote writer.old writer.new (set_bytes writer.old.id (marked_from 0 row.now)) }
{
    writer.number(2, count_marked(row));
    put_marked(row, writer);
}
