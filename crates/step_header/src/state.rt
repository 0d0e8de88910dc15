// A store that has the slots that its header says: slot i of the cells stands at 64 + 16 * i, entry i at 64 + 16 * (heap + i).
// (No methods for the places: the proofs go by computing, and a method's answer would be an equation to rewrite by at each of them.)
ghost use Rattle.step_header.specs.Headers.{Holds};

use crate::Header;

#[derive(Clone, Copy)]
pub struct State<'a> {
    pub store: &'a [u8],
    pub header: Header,
    pub ghost holds: { Holds store.now header },
}
