// Why a run ends before the input does.
use std::alloc::AllocError;
use std::io;

#[derive(Clone, Copy)]
pub enum Trouble {
    // The input is not as it should be: it ends early or goes on, or a size is too large.
    Broken,
    Memory(AllocError),
}

// An error of the input: one that cannot be read on ends there. (What cannot be written ends no run.)
impl From<io::Error> for Trouble {
    fn from(_: io::Error) -> Trouble {
        Trouble::Broken
    }
}

impl From<AllocError> for Trouble {
    fn from(error: AllocError) -> Trouble {
        Trouble::Memory(error)
    }
}
