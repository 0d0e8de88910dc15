// The library's steppers.
use tool_arguments::machine::Machine;
use try_building::refusal::Refusal;

// The steps that a call made, and how many bytes their events have.
#[derive(Clone, Copy, Debug, PartialEq, Eq)]
pub struct Made {
    pub steps: u64,
    pub length: usize,
}

// Here and in `step`: the parameters of the library's function, in its order.
// `machine` and `image`, here, in run.rt and in standing.rt: which stepper, and what it steps; the library has a function for each.
// Starts this definition with these values, which are slots.
pub fn start(
    machine: Machine,
    image: &[u8],
    definition: usize,
    values: &[u8],
    store: &mut [u8],
) -> Result<(), Refusal> {
    Refusal::check(match machine {
        Machine::Source => axcut::axcut_source_start(image, definition, values, store),
        Machine::Linear => axcut::axcut_linear_start(image, definition, values, store),
    })
}

// At most so many steps. It is refused only where none was made.
pub fn step(
    machine: Machine,
    image: &[u8],
    steps: u64,
    store: &mut [u8],
    events: &mut [u8],
) -> Result<Made, Refusal> {
    let mut made = 0;
    let mut length = 0;
    let number = match machine {
        Machine::Source => {
            axcut::axcut_source_step(image, steps, store, events, &mut made, &mut length)
        }
        Machine::Linear => {
            axcut::axcut_linear_step(image, steps, store, events, &mut made, &mut length)
        }
    };
    if made == 0 {
        Refusal::check(number)?;
    }
    Ok(Made {
        steps: made,
        length,
    })
}

// Is this store a state of this image? A call for no steps changes nothing.
pub fn ask(machine: Machine, image: &[u8], store: &mut [u8]) -> Result<(), Refusal> {
    match step(machine, image, 0, store, &mut [0u8; 16]) {
        Ok(_) => Ok(()),
        Err(Refusal::Start) => Err(Refusal::State),
        Err(refusal) => Err(refusal),
    }
}
