// The values of several variables: looked up, under other IDs, and as an event shows them.
#![tactic(auto)]

ghost use Rattle.std.specs.Prelude.{◌≡◌, true, map, ◌+◌, ◌*◌, ◌≤◌, length};
ghost use Rattle.std.proofs.lemmas.List.Edits.{sets};
ghost use Rattle.image_spec.specs.Parse.{each};
ghost use Rattle.image_write_parts.specs.Puts.{Puts};
ghost use Rattle.step_slots.specs.Slots.{slot_bytes, as_slot};
ghost use Rattle.step_slots.specs.Views.{slot_at, slots_at, all_slots};
ghost use Rattle.step_header.specs.States.{entries_of, slots_of};
ghost use Rattle.step_entries.specs.Named.{under};
ghost use Rattle.step_rows.specs.Rows.{ids_of};
ghost use Rattle.step_gather.specs.Gathering.{Gathers, renamed, shown_as};

use step_entries::find;
use step_header::heap::Heap;
use step_header::state::State;
use step_rows::id_of;
use step_rows::places::Places;
use step_rows::row::Row;
use step_slots::sort::Sort;
use step_slots::{Slot, put_four, put_none, put_slot, read};

// The values of the row's variables, found among the n slots of store from at, each in a slot without its ID; no, as soon as one is absent.
// (A `for` that returns: what was found is written at once. A yes or no: what it makes is in `out`, and where it is no, that is of no use; that there is no
// step is for a rule to say.)
pub fn gather_from(
    row: &Row<'_>,
    store: &[u8],
    at: usize,
    n: usize,
    out: &mut [u8],
    to: usize,
) -> bool
    requires { (at + 16 * n ≤ length store.now) × ((all_slots (slots_at store.now at n) ≡ true) × (to + 16 * row.now.places.len ≤ length out.old)) }
    ensures { Gathers (slots_at store.now at n) (ids_of row.now) out.old to out.new result }
{
    for j in 0..row.places.len {
        let Some(found) = find(store, at, n, id_of(row, j)) else {
            return false;
        };
        put_slot(out, to + 16 * j, Slot { id: 0, ..found });
    }
    true
}

// The same, found in the environment of the state.
pub fn gather(row: &Row<'_>, state: &State<'_>, out: &mut [u8], to: usize) -> bool
    requires { to + 16 * row.now.places.len ≤ length out.old }
    ensures { Gathers (entries_of state.now) (ids_of row.now) out.old to out.new result }
{
    let heap = state.header.heap as usize;
    let entries = state.header.entries as usize;
    gather_from(row, state.store, 64 + 16 * heap, entries, out, to)
}

// The row's IDs in the slots from at, one for one. Only bytes 4 to 7 of each are written.
// (By places, here and in `show`: `chunks_exact_mut` would need a slice of the slots first, and the row or the other slots are read by place all the same.)
pub fn rename(row: &Row<'_>, slots: &mut [u8], at: usize)
    requires { (at + 16 * row.now.places.len ≤ length slots.old) × (all_slots (slots_at slots.old at row.now.places.len) ≡ true) }
    ensures { slots.new ≡ sets slots.old at (each slot_bytes (renamed (ids_of row.now) (slots_at slots.old at row.now.places.len))) }
{
    for j in 0..row.places.len {
        let id = id_of(row, j);
        put_four(slots, at + 16 * j + 4, id);
    }
}

// The ID 0 in the n slots from at: that of a row of numbers with no bytes.
// `at` and `n`, here and in `show`: slots in scratch, of which no header tells, or values that are some of a store's entries.
pub fn erase(slots: &mut [u8], at: usize, n: usize)
    requires { (at + 16 * n ≤ length slots.old) × (all_slots (slots_at slots.old at n) ≡ true) }
    ensures { slots.new ≡ sets slots.old at (each slot_bytes (map (under 0) (slots_at slots.old at n))) }
{
    // `rename` of such a row, and no loop of its own, which would be that of `rename` once more.
    let bytes: [u8; 1] = [0];
    let places = Places {
        from: 0,
        stride: 0,
        offset: 0,
        width: 0,
        len: n,
    };
    let row = Row {
        bytes: &bytes,
        places,
    };
    rename(&row, slots, at);
}

// What an event shows of a value's 64 bits: of a cell its number.
// (A `match`: with `map_or` it stood open what its closure answers; the two arms are the two cases of the proof.)
// `heap` and `t`, here, in `shown` and in step_scan: a value, and the cells to one of which it may refer.
pub fn shown_payload(heap: &Heap<'_>, t: Slot) -> u64
    ensures { result ≡ (shown_as (slots_of heap.now) (as_slot t)).payload }
{
    if t.sort != Sort::Cell {
        return t.payload;
    }
    let at = t.payload as usize;
    if heap.count <= at {
        return 0;
    }
    match read(heap.store, 64 + 16 * at) {
        Some(cell) => cell.payload,
        None => 0,
    }
}

// A value as an event shows it.
fn shown(heap: &Heap<'_>, t: Slot) -> Slot
    ensures { as_slot result ≡ shown_as (slots_of heap.now) (as_slot t) }
{
    Slot {
        sort: t.sort,
        id: 0,
        payload: shown_payload(heap, t),
    }
}

// The slot from at as an event shows it. What is no slot is shown as sixteen bytes that are none.
fn show_one(heap: &Heap<'_>, slots: &[u8], at: usize, events: &mut [u8], to: usize)
    requires { (at + 16 ≤ length slots.now) × (to + 16 ≤ length events.old) }
    ensures { events.new ≡ sets events.old to (slot_bytes (shown_as (slots_of heap.now) (slot_at slots.now at))) }
{
    match read(slots, at) {
        Some(t) => {
            put_slot(events, to, shown(heap, t));
        }
        None => {
            put_none(events, to);
        }
    }
}

// The n slots from at as an event shows them, from `to` on; a cell that is not in the store has the number 0.
pub fn show(
    heap: &Heap<'_>,
    slots: &[u8],
    at: usize,
    n: usize,
    events: &mut [u8],
    to: usize,
) -> usize
    requires { (at + 16 * n ≤ length slots.now) × (to + 16 * n ≤ length events.old) }
    ensures { Puts events.old events.new to result (each slot_bytes (map (shown_as (slots_of heap.now)) (slots_at slots.now at n))) }
{
    for j in 0..n {
        show_one(heap, slots, at + 16 * j, events, to + 16 * j);
    }
    to + 16 * n
}
