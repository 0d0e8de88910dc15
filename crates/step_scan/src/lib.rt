// Question 14: is a store the bytes of a state? One pass over its slots.
#![tactic(auto)]

ghost use Rattle.std.specs.Prelude.{◌≡◌, List, ◌+◌, ◌*◌, ◌≤◌, length, drop};
ghost use Rattle.model.specs.Syntax.{Prog};
ghost use Rattle.step_slots.specs.Sorts.{own_code};
ghost use Rattle.step_slots.specs.Slots as view;
ghost use Rattle.step_slots.specs.Slots.{as_slot, is_cell_lem};
ghost use Rattle.step_slots.specs.Views.{slots_at};
ghost use Rattle.step_spec.specs.Store.{first_slot, first_record, is_a_statement, is_a_create, entry_ok, every_slot};
ghost use Rattle.step_spec.specs.Scan.{head_ok, held_ok};
ghost use Rattle.step_header.specs.States.{slots_of};
ghost use Rattle.step_scan.specs.Pass.{Of, pass};
ghost use Rattle.image_directory.specs.Images.{records_of};

use image_directory::image::Image;
use image_kinds::kinds::Kind;
use image_shape::look;
use step_header::heap::Heap;
use step_slots::sort::Sort;
use step_slots::{Slot, read};

pub fn is_statement(image: &Image<'_>, i: u32) -> bool
    ensures { result ≡ first_record is_a_statement (drop i (records_of image.now)) }
{
    look(image, i as usize).is_some_and(|node| node.kind != Kind::Definition
        && node.kind != Kind::Clause)
}

fn is_create(image: &Image<'_>, i: u32) -> bool
    ensures { result ≡ first_record is_a_create (drop i (records_of image.now)) }
{
    look(image, i as usize).is_some_and(|node| node.kind == Kind::Create)
}

// Is it the place of a cell's slot? What is no slot counts as one here: it is refused where it stands.
// (A `match`: with `is_none_or` it stood open that the answer is the definition's; the two arms are the two cases of the proof. The test
// comes first, since what is read asks for it.)
fn is_cell(heap: &Heap<'_>, p: u64) -> bool
    ensures { result ≡ first_slot «is_cell_lem» (drop p (slots_of heap.now)) }
{
    let i = p as usize;
    if heap.count <= i {
        return false;
    }
    match read(heap.store, 64 + 16 * i) {
        Some(t) => t.sort.begins_cell(),
        None => true,
    }
}

// Is it a value: an integer, a cell by the place of its slot, or an outside number?
fn value_ok(heap: &Heap<'_>, t: Slot) -> bool
    ensures { (P : Prog) → result ≡ entry_ok P (slots_of heap.now) (as_slot t) }
{
    match t.sort {
        Sort::Integer => true,
        Sort::Cell => is_cell(heap, t.payload),
        Sort::Outside => t.payload < 256,
        Sort::LetCell | Sort::CreateCell => false,
    }
}

// May a cell with an own slot of this sort hold it? Before the first cell there is none. (A `bool` is answered, so no `?`.)
fn held_ok(heap: &Heap<'_>, own: Option<Sort>, t: Slot) -> bool
    ensures { (P : Prog) → result ≡ held_ok P (slots_of heap.now) (own_code own) (as_slot t) }
{
    let Some(sort) = own else {
        return false;
    };
    match sort {
        // No cell has such an own slot.
        Sort::Integer => false,
        Sort::LetCell => t.id == 0 && value_ok(heap, t),
        // A Create's cell; the definition asks no more of the sorts that no own slot has.
        _ => value_ok(heap, t),
    }
}

// Has a cell's own slot a tag, or the place of a Create?
// (`_` is a Create's cell: no other slot is asked. The definition has two cases too, so names for the rest would say no more.)
fn head_ok(image: &Image<'_>, t: Slot) -> bool
    ensures { (P : Prog) (heap : List view.Slot) → Of P image.now.frame image.now.bytes.now → result ≡ head_ok P heap (as_slot t) }
{
    match t.sort {
        Sort::LetCell => t.id < 65536,
        _ => is_create(image, t.id),
    }
}

// The slots of the cells: numbered from 0, with what each may hold, and as many as the header says.
// (A loop: what one slot may be hangs on the cells before it, so a `try_fold` would carry the same two variables; `k` counts cells, not slots, so it
// is no `enumerate`.)
pub fn cells_ok(image: &Image<'_>, heap: &Heap<'_>, cells: u64) -> bool
    ensures { (P : Prog) → Of P image.now.frame image.now.bytes.now → result ≡ pass P (slots_of heap.now) cells 0 0 (slots_of heap.now) }
{
    let mut k: u64 = 0;
    let mut own = None;
    for i in 0..heap.count {
        let Some(t) = read(heap.store, 64 + 16 * i) else {
            return false;
        };
        if t.sort.begins_cell() {
            if t.payload != k || !head_ok(image, t) {
                return false;
            }
            k += 1;
            own = Some(t.sort);
        } else if !held_ok(heap, own, t) {
            return false;
        }
    }
    k == cells
}

// The entries of the environment.
// (A `for` that returns: with `all` it stood open that the closure's answer is the definition's, which speaks of every program.)
pub fn entries_ok(heap: &Heap<'_>, entries: usize) -> bool
    requires { 64 + 16 * (heap.now.count + entries) ≤ length heap.now.store.now }
    ensures { (P : Prog) → result ≡ every_slot (entry_ok P (slots_of heap.now)) (slots_at heap.now.store.now (64 + 16 * heap.now.count) entries) }
{
    for i in 0..entries {
        let Some(t) = read(heap.store, 64 + 16 * (heap.count + i)) else {
            return false;
        };
        if !value_ok(heap, t) {
            return false;
        }
    }
    true
}
