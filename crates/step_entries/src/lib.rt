// The entries of an environment in a store: looked up by ID.
#![tactic(auto)]

ghost use Rattle.std.specs.Prelude.{◌≡◌, true, ◌+◌, ◌*◌, ◌≤◌, length};
ghost use Rattle.step_slots.specs.Views.{found_slot, slot_at, slots_at, is_slot, all_slots};
ghost use Rattle.step_header.specs.States.{entries_of};
ghost use Rattle.step_entries.specs.Named.{named, last_slot};

use image_fields::number;
use step_header::state::State;
use step_slots::{Slot, read};

// The ID of the slot at a place.
fn id_at(store: &[u8], at: usize) -> u32
    requires { (at + 16 ≤ length store.now) × (is_slot (slot_at store.now at) ≡ true) }
    ensures { result ≡ (slot_at store.now at).id }
{
    number(store, at + 4, 4)
}

// The first of the n slots from at with this ID. Only the IDs are read on the way.
// (By places: a slot is read from its bytes, as in step_values. `store`, `at` and `n`, also in `gather_from`: any slots of a store that is lent without a header,
// as at the start; no value has the three.)
pub fn find(store: &[u8], at: usize, n: usize, id: u32) -> Option<Slot>
    requires { (at + 16 * n ≤ length store.now) × (all_slots (slots_at store.now at n) ≡ true) }
    ensures { found_slot result ≡ named id (slots_at store.now at n) }
{
    let i = (0..n).find(|i| id_at(store, at + 16 * *i) == id)?;
    read(store, at + 16 * i)
}

// The slot of a variable that is there.
pub fn slot_of(state: &State<'_>, id: u32) -> Option<Slot>
    ensures { found_slot result ≡ named id (entries_of state.now) }
{
    let heap = state.header.heap as usize;
    let entries = state.header.entries as usize;
    find(state.store, 64 + 16 * heap, entries, id)
}

// The slot of the last entry, if there is one.
pub fn last_value(state: &State<'_>) -> Option<Slot>
    ensures { found_slot result ≡ last_slot (entries_of state.now) }
{
    let heap = state.header.heap as usize;
    let entries = state.header.entries as usize;
    if entries == 0 {
        return None;
    }
    read(state.store, 64 + 16 * heap + 16 * (entries - 1))
}
