// What the walk finds at a use and at a binder (questions 8, 9, 10, and the room of question 7).
ghost use Rattle.std.specs.Prelude.{◌≡◌, ◌∷◌, []};
ghost use Rattle.syntax.specs.Sets.{elem};
ghost use Rattle.scope_spec.specs.Walk.{enter_one_lem};
ghost use Rattle.scope_places.specs.Scoping.{scope_of, used_all_lem, scoped_of, Entered};
ghost use Rattle.scope_places.specs.Views.{viewed};

use crate::mask::mask_one;
use crate::scope::{InScope, ScopeView};
use scope_spec::Verdict;
use syntax::context::TypingContext;
use syntax::names::VarId;

// What was used, as a mask over the places in scope, and the verdict.
#[derive(Clone, Copy)]
pub struct Using {
    pub mask: u64,
    pub verdict: Verdict,
}

// Is the ID in scope?
fn contains(scope: &InScope<'_>, id: VarId) -> bool
    ensures { result ≡ elem id (scope_of scope.now) }
{
    scope.ids[..scope.n].contains(&id.0)
}

// A variable is used.
pub fn use_one(scope: &ScopeView<'_>, id: VarId, u: Using) -> Using
    ensures { result ≡ used_all_lem (viewed scope.now) (id ∷ []) u }
{
    let one = mask_one(scope, id);
    let uses = u.verdict.uses && one != 0;
    Using {
        mask: u.mask | one,
        verdict: Verdict { uses, ..u.verdict },
    }
}

// A binder's ID comes into a scope that has room for it. The verdict is the one with which the scope was reached.
pub fn enter_one(scope: &mut InScope<'_>, verdict: Verdict, id: VarId, max_id: u32) -> Verdict
    ensures { Entered scope.old scope.new result (enter_one_lem max_id id (scoped_of scope.old verdict)) }
{
    let n = scope.n;
    if n < TypingContext::MAX {
        let binders = verdict.binders && !contains(scope, id);
        let ids = verdict.ids && id.0 <= max_id;
        scope.ids[n] = id.0;
        scope.n = n + 1;
        return Verdict {
            binders,
            ids,
            ..verdict
        };
    }
    Verdict {
        room: false,
        ..verdict
    }
}
