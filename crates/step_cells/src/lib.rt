// The cell that a value refers to, in the slots of a store's cells: what Switch and Invoke look into.
#![tactic(auto)]

ghost use Rattle.std.specs.Prelude.{◌≡◌, true, ◌+◌, ◌<◌, length, drop};
ghost use Rattle.step_spec.specs.Store.{leading};
ghost use Rattle.step_slots.specs.Slots.{as_slot};
ghost use Rattle.step_slots.specs.Views.{all_slots};
ghost use Rattle.step_header.specs.States.{heap_of, slots_of};
ghost use Rattle.step_cells.specs.Cells.{found_cell, cell_in'};

use step_header::heap::Heap;
use step_header::state::State;
use step_slots::sort::Sort;
use step_slots::{Slot, read};

// A cell: its own slot (of a Let with a tag, or of a Create with the place of its record; its number), the byte where what it holds begins, and how
// many slots that is. (No range of bytes: slots are counted, and the header and the rows take the count. No `Slot` in it: its payload is the number here.)
#[derive(Clone, Copy, Debug, PartialEq, Eq)]
pub struct Cell {
    pub sort: Sort,
    pub id: u32,
    pub number: u64,
    pub from: usize,
    pub len: usize,
}

// How many slots are behind the one at `place`, up to the next cell's own or the end. Only the sorts are read.
pub fn held_count(heap: &Heap<'_>, place: usize) -> usize
    requires { (place < heap.now.count) × (all_slots (slots_of heap.now) ≡ true) }
    ensures { result ≡ length (leading (drop (place + 1) (slots_of heap.now))) }
{
    let first = place + 1;
    let end = (first..heap.count)
        .find(|j| Sort::LetCell as u8 <= heap.store[64 + 16 * *j])
        .unwrap_or(heap.count);
    end - first
}

// The cell that a value's slot refers to, if it refers to one.
pub fn cell_of(state: &State<'_>, value: Slot) -> Option<Cell>
    ensures { found_cell result ≡ cell_in' (heap_of state.now) (as_slot value) }
{
    let heap = state.header.heap as usize;
    let at = value.payload as usize;
    if value.sort != Sort::Cell || heap <= at {
        return None;
    }
    let own = read(state.store, 64 + 16 * at)?;
    let cells = Heap {
        store: state.store,
        count: heap,
    };
    let len = held_count(&cells, at);
    Some(Cell {
        sort: own.sort,
        id: own.id,
        number: own.payload,
        from: 64 + 16 * (at + 1),
        len,
    })
}
