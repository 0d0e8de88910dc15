// A new cell under var, which Let and Create of either machine make. The proofs are about these and about the last entries of a linear list.
#![tactic(auto)]

ghost use Rattle.std.specs.Prelude.{◌≡◌, ◌+◌, ◌<◌, ◌^◌};
ghost use Rattle.step_slots.specs.Slots.{as_slot};
ghost use Rattle.step_last.specs.NewCell.{with_cell, var_slot_lem};

use step_header::Header;
use step_slots::Slot;
use step_slots::sort::Sort;

// The header behind a statement that makes a cell of `held` slots behind its own, where `others` entries stay beside var.
pub fn after(header: Header, next: u32, held: u64, others: u64) -> Header
    requires { (header.cells + 1 < 2 ^ 64) × ((header.heap + (held + 1) < 2 ^ 64) × (others + 1 < 2 ^ 64)) }
    ensures { result ≡ with_cell header next held others }
{
    Header {
        position: next,
        ended: false,
        stopped: false,
        cells: header.cells + 1,
        heap: header.heap + (held + 1),
        entries: others + 1,
    }
}

// The new cell under var.
pub fn var_slot(header: Header, id: u32) -> Slot
    ensures { as_slot result ≡ var_slot_lem header id }
{
    Slot {
        sort: Sort::Cell,
        id,
        payload: header.heap,
    }
}
