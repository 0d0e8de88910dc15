// Sets of variable IDs (`HashSet<ID>` in the Rust): an array with a count.
ghost use Rattle.std.specs.Prelude.{◌≡◌, ◌∷◌, [], ◌++◌, ◌≤◌, ◌<◌, length};
ghost use Rattle.syntax.specs.Sets.{elem};

use crate::names::VarId;

// By value, as `TypingContext`: nothing below the programs takes memory.
// (No `Few<T, N>` for this, `TypingContext`, `Held` and `Substitution`: it would share two facts, `empty` and a push, whose contracts would still be by each
// list's own function, `binding_of`, `entry_in` or `pair_of`. No `ArrayVec<T, N>` of the kit, for it is not `Copy`, and a rule copies the context that it changes.)
#[derive(Clone, Copy)]
pub struct IdSet {
    pub ids: [VarId; IdSet::MAX],
    pub len: usize,
    // (Said of the array too, so that a law has the count of the list from the struct alone.)
    pub ghost size: { length ids ≡ 128 },
    pub ghost fits: { len ≤ 128 },
}

impl IdSet {
    ghost use Rattle.syntax.specs.Arrays.{set_of, SetHolds};

    // Room for the IDs of two contexts: what clashes, and what came earlier.
    pub const MAX: usize = 128;

    pub fn empty() -> Self
        ensures { SetHolds result [] }
    {
        let none = VarId(0);
        IdSet {
            ids: [none; IdSet::MAX],
            len: 0,
        }
    }

    pub fn add(self, id: VarId) -> Self
        requires { self.len < 128 }
        ensures { SetHolds result (set_of self ++ (id ∷ [])) }
    {
        let at = self.len;
        let mut next = self;
        next.ids[at] = id;
        next.len = at + 1;
        next
    }

    pub fn contains(&self, id: VarId) -> bool
        ensures { result ≡ elem id (set_of self.now) }
    {
        self.ids[..self.len].contains(&id)
    }
}
