// The values of a start: one slot for each parameter, an integer or an outside number, without an ID.
#![tactic(auto)]

ghost use Rattle.std.specs.Prelude.{◌≡◌, ◌+◌, ◌*◌, ◌≤◌, length};
ghost use Rattle.step_slots.specs.Slots.{as_slot};
ghost use Rattle.step_slots.specs.Views.{slot_at, slots_at};
ghost use Rattle.step_spec.specs.Store.{every_slot};
ghost use Rattle.step_values.specs.Values.{given_ok_lem, are_given_lem};

use step_slots::sort::Sort;
use step_slots::{Slot, read};

fn given_ok(value: Slot) -> bool
    ensures { result ≡ given_ok_lem (as_slot value) }
{
    let is_value = match value.sort {
        Sort::Integer => true,
        Sort::Outside => value.payload < 256,
        Sort::Cell | Sort::LetCell | Sort::CreateCell => false,
    };
    value.id == 0 && is_value
}

// Is there a value at place i that a start may give?
fn given_at(values: &[u8], i: usize) -> bool
    requires { 16 * i + 16 ≤ length values.now }
    ensures { result ≡ given_ok_lem (slot_at values.now (16 * i)) }
{
    read(values, 16 * i).is_some_and(given_ok)
}

// (By places, and no `chunks_exact(16)`: the contract reads slots by their places, so each chunk would have to be shown to be the bytes at one.)
fn every_given(values: &[u8], n: usize) -> bool
    requires { 16 * n ≤ length values.now }
    ensures { result ≡ every_slot given_ok_lem (slots_at values.now 0 n) }
{
    (0..n).all(|i| given_at(values, i))
}

// Are they n slots, each a value that a start may give? (The caller lends them, and the definition has n parameters: the lengths are compared.
// A test first: where it refuses and where the values are asked are the cases of the proof.)
pub fn are_given(values: &[u8], n: usize) -> bool
    ensures { result ≡ are_given_lem n values.now }
{
    let len = values.len();
    if len % 16 != 0 || len / 16 != n {
        return false;
    }
    every_given(values, n)
}
