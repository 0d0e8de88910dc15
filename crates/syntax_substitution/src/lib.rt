// substitute.rs: the rearrangement of a context, up to 128 pairs in an order.
#![tactic(auto)]

ghost use Rattle.std.specs.Prelude.{◌≡◌, ◌≤◌, length};
ghost use Rattle.syntax.specs.Flat.{binding_of};

use syntax::context::{Chirality, ContextBinding, FlatBinding};
use syntax::names::{Identifier, Name, VarId};

// The target takes the value of the source.
#[derive(Clone, Copy)]
pub struct Pair {
    pub target: ContextBinding,
    pub source: Identifier,
}

// A pair as it stands in an array: its parts side by side, so that none of an element's bytes is unused.
#[derive(Clone, Copy)]
pub struct FlatPair {
    pub id: VarId,
    pub ty_id: VarId,
    pub source: VarId,
    pub name: Name,
    pub ty_name: Name,
    pub source_name: Name,
    pub chi: Chirality,
    // Whether the target's type is declared. I64 has no identifier. A flag and no Option: 20 bytes and not 28.
    pub declared: bool,
}

// By value with a count, as `IdSet`, which says why: nothing below the programs takes memory.
#[derive(Clone, Copy)]
pub struct Substitution {
    pub pairs: [FlatPair; Substitution::MAX],
    pub len: usize,
    pub ghost size: { length pairs ≡ 128 },
    pub ghost fits: { len ≤ 128 },
}

impl FlatPair {
    ghost use Rattle.syntax_substitution.specs.Pairs.{empty_flat_pair, pair_of};

    // What stands in the unused places of an array.
    pub fn empty() -> Self
        ensures { result ≡ empty_flat_pair }
    {
        FlatPair {
            id: VarId(0),
            ty_id: VarId(0),
            source: VarId(0),
            name: Name(0),
            ty_name: Name(0),
            source_name: Name(0),
            chi: Chirality::Prd,
            declared: false,
        }
    }

    // The target takes the value of the variable that is wanted in its place.
    pub fn of(target: FlatBinding, wanted: FlatBinding) -> Self
        ensures { pair_of result ≡ record { target = binding_of target; source = (binding_of wanted).var } }
    {
        FlatPair {
            id: target.id,
            ty_id: target.ty_id,
            source: wanted.id,
            name: target.name,
            ty_name: target.ty_name,
            source_name: wanted.name,
            chi: target.chi,
            declared: target.declared,
        }
    }

    // The pair that it stands for. (`From` by name, beside `of`.)
    pub fn pair(self) -> Pair
        ensures { result ≡ pair_of self }
    {
        Pair::from(self)
    }
}

impl From<FlatPair> for Pair {
    ghost use Rattle.syntax_substitution.specs.Pairs.{pair_of};

    ghost from_gives = { λ flat pair. pair ≡ pair_of flat };

    fn from(flat: FlatPair) -> Self {
        let target = FlatBinding {
            id: flat.id,
            ty_id: flat.ty_id,
            name: flat.name,
            ty_name: flat.ty_name,
            chi: flat.chi,
            declared: flat.declared,
            unused: 0,
        };
        Pair {
            target: target.binding(),
            source: Identifier {
                name: flat.source_name,
                id: flat.source,
            },
        }
    }
}

impl Substitution {
    // How many pairs a rearrangement has: those of two contexts.
    pub const MAX: usize = 128;
}
