// The IDs in scope: the first n of a lent array. Who only asks about them takes a `ScopeView`, for which an array that others read too will do.
// (Lent, and not a set by value: one array of 64 serves every depth, and the walk sets `n` back behind a body. Numbers, as at
// the start: a slice of `VarId` would ask more of who lends one.)
// (`scope` and `id`: one scope is asked about many IDs. `scope` and `verdict`: the scope is set back behind a body, the verdict goes on.)
ghost use Rattle.std.specs.Prelude.{◌≡◌};
ghost use Rattle.scope_places.specs.Places.{ScopeAt};

#[derive(Drop)]
pub struct InScope<'s> {
    pub ids: &'s mut [u32],
    pub n: usize,
    pub ghost fits: { ScopeAt ids.now n },
}

// The same, to be read alone.
#[derive(Clone, Copy)]
pub struct ScopeView<'s> {
    pub ids: &'s [u32],
    pub n: usize,
    pub ghost fits: { ScopeAt ids.now n },
}

impl InScope<'_> {
    ghost use Rattle.scope_places.specs.Scoping.{scope_of};
    ghost use Rattle.scope_places.specs.Views.{viewed};

    pub fn view(&self) -> ScopeView<'_>
        ensures { viewed result ≡ scope_of self.now }
    {
        ScopeView {
            ids: &*self.ids,
            n: self.n,
        }
    }
}
