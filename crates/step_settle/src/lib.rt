// The stopped flag of a state that was just written: set where the machine stops there.
#![tactic(auto)]

ghost use Rattle.std.specs.Prelude.{◌≡◌, ◌≤◌, ◌<◌, length, set};
ghost use Rattle.step_header.specs.Headers.{Holds};
ghost use Rattle.step_rule.specs.Rules.{machine_in};
ghost use Rattle.step_order.specs.Sure.{SureIn};
ghost use Rattle.step_settle.specs.Settling.{stopping, Settles};

use step_header::Header;
use step_header::state::State;
use step_order::stops;
use step_order::sure::SureState;
use step_places::stepper::Stepper;
use step_spec::MachineKind;

// The flag set, in the store and in the header.
// `store` and `header`, also in step_start: the store is written here, and a `State` lends it to be read.
pub fn stop(store: &mut [u8], header: Header) -> Header
    requires { 64 ≤ length store.old }
    ensures { (store.new ≡ set store.old 5 1) × (result ≡ stopping header) }
{
    store[5] = 1;
    Header {
        stopped: true,
        ..header
    }
}

// The source machine never stops, and a run that has ended does not. `sure`, here, in step_turn and in step_run: a fact about the store that comes with
// each call of it (`SureIn`); both values give the same answer, the one without looking at the IDs.
pub fn settle(stepper: &Stepper<'_>, store: &mut [u8], header: Header, sure: bool) -> Header
    requires { (header.position < stepper.now.image.frame.count) × (Holds store.old header × SureIn stepper.now sure store.old header) }
    ensures { Settles (machine_in stepper.now) stepper.now stepper.now.image.bytes.now store.old header store.new result }
{
    if header.ended || stepper.machine == MachineKind::Source {
        return header;
    }
    let state = State { store, header };
    if stops(stepper, &SureState { state, sure }) {
        return stop(store, header);
    }
    header
}
