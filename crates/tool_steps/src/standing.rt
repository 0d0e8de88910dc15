// How a run stands: what its last line says.
use crate::machine::{self, Made};
use crate::store::Store;
use std::fmt;
use tool_arguments::machine::Machine;

#[derive(Clone, Copy, Debug, PartialEq, Eq)]
pub enum Standing {
    GoesOn,
    Ended,
    Stopped,
    Stuck,
    NoRoom,
}

impl Standing {
    // The store is one whose bytes are kept elsewhere: where no flag is set, the next step is tried in it.
    pub fn of(machine: Machine, image: &[u8], store: &mut [u8]) -> Standing {
        match Store::of(store) {
            Some(state) if state.has_ended => return Standing::Ended,
            Some(state) if state.has_stopped => return Standing::Stopped,
            Some(_) | None => {}
        }
        match machine::step(machine, image, 1, store, &mut io::large_buffer()) {
            Ok(Made { steps: 0, .. }) => Standing::Stuck,
            Ok(_) => Standing::GoesOn,
            Err(_) => Standing::NoRoom,
        }
    }
}

impl fmt::Display for Standing {
    fn fmt<W: fmt::Write>(&self, f: &mut fmt::Formatter<W>) -> fmt::Result {
        f.write_str(match self {
            Standing::GoesOn => "can go on",
            Standing::Ended => "ended",
            Standing::Stopped => "stopped",
            Standing::Stuck => "stuck",
            Standing::NoRoom => "no room for the next one",
        })
    }
}
