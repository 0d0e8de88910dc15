// The integer that a variable has in the environment of a state.
#![tactic(auto)]

ghost use Rattle.std.specs.Prelude.{◌≡◌};
ghost use Rattle.syntax.specs.Options.{option_of};
ghost use Rattle.step_header.specs.States.{entries_of};
ghost use Rattle.step_entries.specs.Named.{named};
ghost use Rattle.step_lookup.specs.Integer.{integer_in};

use step_entries::slot_of;
use step_header::state::State;
use step_slots::sort::Sort;

// The integer of a variable that is there and has one.
pub fn integer_of(state: &State<'_>, id: u32) -> Option<i64>
    ensures { option_of result ≡ integer_in (named id (entries_of state.now)) }
{
    let slot = slot_of(state, id)?;
    match slot.sort {
        Sort::Integer => Some(slot.payload.cast_signed()),
        // Every other sort has none: the definition has these two cases too.
        _ => None,
    }
}
