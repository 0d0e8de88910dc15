// A call for steps: questions first, then 14, then the steps.
#![tactic(auto)]

ghost use Rattle.std.specs.Prelude.{◌≡◌, ◌<◌};
ghost use Rattle.image_open.specs.Opening.{Known};
ghost use Rattle.step_spec.specs.Calls.{step_call_lem};
ghost use Rattle.step_order.specs.Sure.{SureIn};
ghost use Rattle.step_ask.specs.Asking.{stepper_of};
ghost use Rattle.step_answer_spec.specs.Saying.{result_of, Accepted};
ghost use Rattle.step_call.specs.Stepping.{said_of, Forged, StepsOn};

use image_open::opened::Opened;
use image_spec::Layout;
use step_answer_spec::{Failure, Shown};
use step_ask::ask;
use step_header::state::State;
use step_open::open_store;
use step_order::list::entries_row;
use step_order::stops;
use step_order::sure::SureState;
use step_places::ends::fill_ends;
use step_places::stepper::Stepper;
use step_rows::distinct;
use step_run::{Ran, run};
use step_spec::MachineKind;
use step_write::Work;

// Does the machine stop at the state, though its flag is clear? No call leaves such a store.
// (`stops` comes after the test: it is asked of a `SureState` that is made here.)
fn is_forged(stepper: &Stepper<'_>, state: &State<'_>) -> bool
    requires { state.now.header.position < stepper.now.image.frame.count }
    ensures { Forged stepper.now stepper.now.image.bytes.now state.now.store.now state.now.header result }
{
    let header = state.header;
    if header.ended || header.stopped || stepper.machine == MachineKind::Source {
        return false;
    }
    let known = SureState {
        state: *state,
        sure: false,
    };
    stops(stepper, &known)
}

// Are the IDs of the linear machine's list distinct? It is asked once a call: steps keep them so. (A `match`: its two arms are the two cases of the proof.)
fn is_sure(stepper: &Stepper<'_>, state: &State<'_>) -> bool
    ensures { SureIn stepper.now result state.now.store.now state.now.header }
{
    match stepper.machine {
        MachineKind::Source => false,
        MachineKind::Linear => distinct(&entries_row(state)),
    }
}

fn answer(ran: Ran) -> Result<Shown, Failure>
    ensures { result ≡ said_of ran }
{
    let shown = Shown {
        steps: ran.steps,
        length: ran.length,
    };
    if ran.full {
        return Err(Failure::NoRoom(shown));
    }
    Ok(shown)
}

// `steps`, `store` and `events`: as the caller of the C interface lends them; where there is a header, the buffers become a `Work`.
// At most so many steps on an image whose questions were answered with yes.
fn step_on(
    opened: &Opened<'_>,
    machine: MachineKind,
    steps: u64,
    store: &mut [u8],
    events: &mut [u8],
) -> Result<Shown, Failure>
    requires { Accepted opened.now.image.frame opened.now.definitions opened.now.image.bytes.now }
    ensures { StepsOn machine opened.now steps store.old events.old store.new events.new result }
{
    let header = open_store(&opened.image, store).ok_or(Failure::NoState)?;
    // (These lines stand in step_start too: a function could not hand out the table that it fills, and of a stepper that it made in a lent one, four equations would be
    // rewritten by below, where now the literal's parts compute.)
    let mut ends = [0u32; Layout::MAX_RECORDS];
    fill_ends(&opened.image, &mut ends);
    let stepper = Stepper {
        image: opened.image,
        ends: &ends,
        definitions: opened.definitions,
        machine,
    };
    let state = State { store, header };
    if is_forged(&stepper, &state) {
        return Ok(Shown {
            steps: 0,
            length: 0,
        });
    }
    let sure = is_sure(&stepper, &state);
    let mut scratch = [0u8; Work::SCRATCH];
    let mut work = Work {
        store,
        events,
        header,
        at: 0,
    };
    answer(run(&stepper, &mut work, &mut scratch, steps, sure))
}

// At most so many steps of the source or the linear stepper.
pub fn step(
    image: &[u8],
    layout: Layout,
    machine: MachineKind,
    steps: u64,
    store: &mut [u8],
    events: &mut [u8],
) -> Result<Shown, Failure>
    requires { Known layout }
    ensures { result_of result store.new events.new ≡ step_call_lem (stepper_of machine layout) image.now steps store.old events.old }
{
    let opened = ask(image, layout, machine)?;
    step_on(&opened, machine, steps, store, events)
}
