// An integer under a new variable: what Literal and Op of either machine write.
#![tactic(auto)]

ghost use Rattle.std.specs.Prelude.{◌≡◌, ◌+◌, ◌<◌, ◌^◌, ◌≤◌, length};
ghost use Rattle.step_write.specs.Working.{Fit, Keeps};
ghost use Rattle.step_bind.specs.Binding.{moving_lem, Binds};
ghost use Rattle.image_kinds.specs.Codes.{code_of};

use image_kinds::kinds::Kind;
use step_header::Header;
use step_slots::sort::Sort;
use step_slots::{Slot, put_slot};
use step_spec::MachineKind;
use step_write::{EventHead, Step, Stop, Work, finish};

// The source machine's variables come in front of those that are there, the linear machine's behind them: how many move.
// (By the machine, though the paper has two: nothing else differs between them in what Literal and Op do, so each is one rule, and so is what both end with.)
fn moving(machine: MachineKind, entries: usize) -> usize
    ensures { result ≡ moving_lem machine entries }
{
    match machine {
        MachineKind::Source => entries,
        MachineKind::Linear => 0,
    }
}

// `scratch` and `kind`: bytes that rules are lent, and the kind that the event shows.
// (That there is a next place is asked here, in Let and in Substitute: `Given` has it of the record at hand, and a `Work` has no record.)
pub fn bind(
    machine: MachineKind,
    work: &mut Work<'_>,
    scratch: &mut [u8],
    kind: Kind,
    id: u32,
    payload: u64,
) -> Result<Step, Stop>
    requires { (work.old.header.position + 1 < 2 ^ 32) × (Fit work.old × (16 ≤ length scratch.old)) }
    ensures { Binds machine work.old.store.now work.old.events.now work.old.header work.old.at (code_of kind) id payload work.new.store.now work.new.events.now result × Keeps work.old work.new }
{
    let heap = work.header.heap as usize;
    let entries = work.header.entries as usize;
    let kept = moving(machine, entries);
    let var = Slot {
        sort: Sort::Integer,
        id,
        payload,
    };
    put_slot(scratch, 0, var);
    let event = EventHead::of_payload(kind, Sort::Integer as u8, payload);
    // (A literal: this header is made here alone. One that two functions end in has a function: `after` of step_enter, and of step_last.)
    let next = Header {
        position: work.header.position + 1,
        ended: false,
        stopped: false,
        entries: work.header.entries + 1,
        ..work.header
    };
    let from = 64 + 16 * (heap + (entries - kept));
    finish(work, &scratch[..16], event, next, from, kept)
}
