// Runs: calls until all steps that are asked for are made, and the lines of their events.
use crate::event::lines;
use crate::machine;
use tool_arguments::machine::Machine;
use tool_listing::page::Page;
use try_building::refusal::Refusal;

#[derive(Clone, Copy, Debug, PartialEq, Eq)]
pub struct Ran {
    // How many steps were made.
    pub made: u64,
    // Why the next step that is asked for is refused, if it is.
    pub end: Result<(), Refusal>,
}

// Makes at most so many steps and writes a line for each event. An event has at most 65,536 bytes. A call that made steps and had no room for
// more events is followed by another one, so only a step that has no room by itself ends it.
// `image`, `steps` and `store`: as for one call of the machine, which is asked again with the steps that are left.
pub fn run(
    page: &mut Page<'_>,
    machine: Machine,
    image: &[u8],
    steps: u64,
    store: &mut [u8],
) -> std::io::Result<Ran> {
    let mut events = io::large_buffer();
    let mut left = steps;
    // no range: how many steps a call makes is the library's to say
    while 0 < left {
        let made = match machine::step(machine, image, left, store, &mut events) {
            Ok(made) => made,
            Err(refusal) => {
                return Ok(Ran {
                    made: steps - left,
                    end: Err(refusal),
                });
            }
        };
        if made.steps == 0 {
            break;
        }
        lines(page, &events[..made.length.min(events.len())])?;
        left = left.saturating_sub(made.steps);
    }
    Ok(Ran {
        made: steps - left,
        end: Ok(()),
    })
}
