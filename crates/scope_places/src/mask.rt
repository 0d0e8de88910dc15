// Masks over the places of a scope, and a row of two for each record.
ghost use Rattle.std.specs.Prelude.{◌≡◌, ◌∷◌, [], ◌+◌, ◌*◌, ◌%◌, ◌^◌, ◌≤◌};
ghost use Rattle.std.specs.Int.Bits.{bit_or};
ghost use Rattle.std.proofs.lemmas.List.Edits.{sets};
ghost use Rattle.scope_spec.specs.FreeRows.{mask_of};
ghost use Rattle.scope_spec.specs.Pairs.{masks_of};
ghost use Rattle.scope_places.specs.Views.{viewed};

use crate::scope::ScopeView;
use scope_spec::FreeVars;
use syntax::context::TypingContext;
use syntax::names::VarId;

// The places in scope at which an ID stands.
// (A loop: the mask so far, and its bound, would be a `fold`'s invariant, as they are the loop's. By index: of IDs that are taken from the last one down a
// proof knows how many came, and would find the place from that again.)
pub fn mask_one(scope: &ScopeView<'_>, id: VarId) -> u64
    ensures { result ≡ mask_of (id ∷ []) (viewed scope.now) }
{
    let mut mask = 0;
    for i in (0..scope.n).rev() {
        mask = 2 * mask + u64::from(scope.ids[i] == id.0);
    }
    mask
}

// A mask, joined with the places of the outer scope of n variables in a mask from below binders.
pub fn join(mask: u64, below: u64, n: usize) -> u64
    requires { n ≤ 64 }
    ensures { result ≡ bit_or mask (below % 2 ^ n) }
{
    if n < TypingContext::MAX {
        return mask | (below % (1 << n));
    }
    mask | below
}

// Stores the row of the record at index i, if the rows have a place for it.
// (No `get_mut`: once its borrow is over, a proof knows the rows' length, and no row.)
pub fn put_row(rows: &mut [FreeVars], i: usize, row: FreeVars)
    ensures { masks_of rows.new ≡ sets (masks_of rows.old) (2 * i) (row.clauses ∷ row.next ∷ []) }
{
    if i < rows.len() {
        rows[i] = row;
    }
}
