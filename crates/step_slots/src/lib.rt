// The slots of a store: sixteen bytes for a cell, an entry or a value.
#![tactic(auto)]

pub mod sort;

ghost use Rattle.std.specs.Prelude.{◌≡◌, ◌∷◌, [], ◌+◌, ◌≤◌, length, drop};
ghost use Rattle.image_spec.specs.Parse.{got, number, field, zeros, only_if};
ghost use Rattle.image_write_parts.specs.Puts.{Puts};
ghost use Rattle.step_slots.specs.Slots.{slot, slot_bytes, as_slot};
ghost use Rattle.step_slots.specs.Views.{slot_at, found_slot, no_slot};

use crate::sort::Sort;
use image_fields::number;

// What the sixteen bytes hold: a sort, an ID, a tag or a place, and 64 bits. (`id` is no `VarId`: which of the three it is, the sort says.)
#[derive(Clone, Copy, Debug, PartialEq, Eq)]
pub struct Slot {
    pub sort: Sort,
    pub id: u32,
    pub payload: u64,
}

// Bytes and a place (`s, at` and `out, at`, also in step_header, step_entries and step_gather): callers work out places in stores; a `Writer` goes on from its own.
// The number in the eight bytes from at, the lowest first.
// (In halves, which become one load. `u64::from_le_bytes` takes an array, which is filled first: in a loop it took up to three times as long.)
pub fn long_at(s: &[u8], at: usize) -> u64
    requires { at + 8 ≤ length s.now }
    ensures { «number» 8 (drop at s.now) ≡ got result (drop (at + 8) s.now) }
{
    let low = number(s, at, 4);
    let high = number(s, at + 4, 4);
    u64::from(low) + 0x1_0000_0000 * u64::from(high)
}

// Are the n bytes from at zero?
// `at` and `n`: a place in a header or in a slot, and how many bytes the layout leaves empty there; no value has the two.
pub fn all_zero(s: &[u8], at: usize, n: usize) -> bool
    requires { at + n ≤ length s.now }
    ensures { zeros n (drop at s.now) ≡ only_if result (got tt (drop (at + n) s.now)) }
{
    s[at..at + n].iter().all(|byte| *byte == 0)
}

// The slot from at; none where the sixteen bytes are no slot's.
pub fn read(s: &[u8], at: usize) -> Option<Slot>
    requires { at + 16 ≤ length s.now }
    ensures { found_slot result ≡ slot_at s.now at }
{
    // (A `let .. else`: its two ways are the two cases of the proof.)
    let Ok(sort) = Sort::try_from(s[at]) else {
        return None;
    };
    if !all_zero(s, at + 1, 3) {
        return None;
    }
    let id = number(s, at + 4, 4);
    let payload = long_at(s, at + 8);
    Some(Slot { sort, id, payload })
}

// The four bytes of n, the lowest first. Here and below the caller has asked for the room once, so that no byte is tested by itself.
// (The room stays a `requires`: the place is another at each call, so a value that carries bytes, place and room would be made anew for each.)
pub fn put_four(out: &mut [u8], at: usize, n: u32) -> usize
    requires { at + 4 ≤ length out.old }
    ensures { Puts out.old out.new at result (field 4 n) }
{
    out[at..at + 4].copy_from_slice(&n.to_le_bytes());
    at + 4
}

// The eight bytes of n, the lowest first.
pub fn put_long(out: &mut [u8], at: usize, n: u64) -> usize
    requires { at + 8 ≤ length out.old }
    ensures { Puts out.old out.new at result (field 8 n) }
{
    out[at..at + 8].copy_from_slice(&n.to_le_bytes());
    at + 8
}

// A sort, and three zero bytes. (The sort as a byte: what is no slot is written too.) Four stores, which become one where the places are known (docs/SPEED.md).
fn put_sort(out: &mut [u8], at: usize, sort: u8) -> usize
    requires { at + 4 ≤ length out.old }
    ensures { Puts out.old out.new at result (sort ∷ 0 ∷ 0 ∷ 0 ∷ []) }
{
    out[at] = sort;
    out[at + 1] = 0;
    out[at + 2] = 0;
    out[at + 3] = 0;
    at + 4
}

// Sixteen bytes with this one first, an ID and 64 bits; they are a slot's where the first is a sort's.
pub fn put_parts(out: &mut [u8], at: usize, sort: u8, id: u32, payload: u64) -> usize
    requires { at + 16 ≤ length out.old }
    ensures { Puts out.old out.new at result (slot_bytes (slot sort id payload)) }
{
    let after_sort = put_sort(out, at, sort);
    let after_id = put_four(out, after_sort, id);
    put_long(out, after_id, payload)
}

// A slot.
pub fn put_slot(out: &mut [u8], at: usize, t: Slot) -> usize
    requires { at + 16 ≤ length out.old }
    ensures { Puts out.old out.new at result (slot_bytes (as_slot t)) }
{
    put_parts(out, at, t.sort as u8, t.id, t.payload)
}

// Sixteen bytes that are no slot's.
pub fn put_none(out: &mut [u8], at: usize) -> usize
    requires { at + 16 ≤ length out.old }
    ensures { Puts out.old out.new at result (slot_bytes no_slot) }
{
    put_parts(out, at, 5, 0, 0)
}
