// The slots of cells that a store begins with, behind the 64 bytes of its header. What they are is not said: a `State` says that each is a slot.
// (A literal where it is made, of a state, a `Work` or a store: the proofs go by computing.)
ghost use Rattle.std.specs.Prelude.{◌+◌, ◌*◌, ◌≤◌, length};

#[derive(Clone, Copy)]
pub struct Heap<'a> {
    pub store: &'a [u8],
    pub count: usize,
    pub ghost inside: { 64 + 16 * count ≤ length store.now },
}
