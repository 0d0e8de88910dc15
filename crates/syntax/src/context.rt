// context.rs: typing contexts, up to 64 bindings in an order.
ghost use Rattle.std.specs.Prelude.{◌≡◌, ◌∷◌, [], ◌++◌, ◌≤◌, ◌<◌, ◌^◌, length};
ghost use Rattle.syntax.specs.Context.{same_binding, empty_binding};
ghost use Rattle.syntax.specs.Fresh.{fresh, drawn, freshen};
ghost use Rattle.syntax.specs.Flat.{binding_of};

use crate::names::{Identifier, Name, VarId};
use crate::sets::IdSet;
use crate::types::Ty;

#[derive(Clone, Copy, PartialEq, Eq)]
pub enum Chirality {
    Prd,
    Cns,
    Ext,
}

#[derive(Clone, Copy, PartialEq, Eq)]
pub struct ContextBinding {
    pub var: Identifier,
    pub chi: Chirality,
    pub ty: Ty,
}

// A binding as it stands in an array: its parts side by side, which is 16 bytes and not 24, so that a context is quick to copy.
#[derive(Clone, Copy)]
pub struct FlatBinding {
    pub id: VarId,
    pub ty_id: VarId,
    pub name: Name,
    pub ty_name: Name,
    pub chi: Chirality,
    // Whether the type is declared. I64 has no identifier. A flag and no Option: 16 bytes and not 20.
    pub declared: bool,
    // Always 0. It leaves no byte of an element unused, so that an array is cleared at once.
    pub unused: u16,
}

// An array by value with a count, and no Vec: nothing below the programs takes memory, and 64 is the paper's limit. (`IdSet` says why the four such are
// not one generic struct, and why the array's size stands among the facts.)
#[derive(Clone, Copy)]
pub struct TypingContext {
    pub bindings: [FlatBinding; TypingContext::MAX],
    pub len: usize,
    pub ghost size: { length bindings ≡ 64 },
    pub ghost fits: { len ≤ 64 },
}

// A renamed context, and the max_id after it.
#[derive(Clone, Copy)]
pub struct Freshened {
    pub context: TypingContext,
    pub max_id: VarId,
}

impl ContextBinding {
    // What stands in the unused places of an array.
    pub fn empty() -> Self
        ensures { result ≡ empty_binding }
    {
        ContextBinding {
            var: Identifier {
                name: Name(0),
                id: VarId(0),
            },
            chi: Chirality::Prd,
            ty: Ty::I64,
        }
    }

    // (What a derived `==` answers has no name of ours; this says it, and callers that prove something of it call this.)
    pub fn same(self, other: ContextBinding) -> bool
        ensures { result ≡ same_binding self other }
    {
        self.var == other.var && (self.chi == other.chi && self.ty == other.ty)
    }

    // (A method and no `From`, and `binding` so: they end chains, as `used_binding(e, b.binding()).flat()`, and `from` would turn these inside out.)
    pub fn flat(self) -> FlatBinding
        ensures { binding_of result ≡ self }
    {
        let x = self.ty.identifier();
        FlatBinding {
            id: self.var.id,
            ty_id: x.id,
            name: self.var.name,
            ty_name: x.name,
            chi: self.chi,
            declared: self.ty.declared(),
            unused: 0,
        }
    }
}

impl FlatBinding {
    pub fn binding(self) -> ContextBinding
        ensures { result ≡ binding_of self }
    {
        let var = Identifier {
            name: self.name,
            id: self.id,
        };
        let ty = if self.declared {
            Ty::Decl(Identifier {
                name: self.ty_name,
                id: self.ty_id,
            })
        } else {
            Ty::I64
        };
        ContextBinding {
            var,
            chi: self.chi,
            ty,
        }
    }

    // The binding under the ID that is drawn at a max_id.
    fn drawn(self, max_id: VarId) -> Self
        requires { fresh max_id.0 < 2 ^ 32 }
        ensures { binding_of result ≡ drawn max_id.0 (binding_of self) }
    {
        let mut renamed = self;
        renamed.id = Identifier::fresh(max_id, self.name).id;
        renamed
    }
}

impl TypingContext {
    ghost use Rattle.syntax.specs.Arrays.{set_of, context_of, Holds, Freshens};

    // How many bindings can be in scope.
    pub const MAX: usize = 64;

    pub fn empty() -> Self
        ensures { Holds result [] }
    {
        let none = ContextBinding::empty().flat();
        TypingContext {
            bindings: [none; TypingContext::MAX],
            len: 0,
        }
    }

    pub fn push(self, b: ContextBinding) -> Self
        requires { self.len < 64 }
        ensures { Holds result (context_of self ++ (b ∷ [])) }
    {
        let at = self.len;
        let mut next = self;
        next.bindings[at] = b.flat();
        next.len = at + 1;
        next
    }

    // Draws an ID for each binding whose own is among the clashes or came earlier.
    pub fn freshen(self, clashes: IdSet, max_id: VarId) -> Freshened
        requires { (clashes.len ≤ 64) × ((freshen (context_of self) (set_of clashes) max_id.0).1 < 2 ^ 32) }
        ensures { Freshens result (freshen (context_of self) (set_of clashes) max_id.0) }
    {
        let mut out = self;
        let mut seen = clashes;
        let mut max = max_id;
        // by places: of a part that is lent of a struct with a ghost field nothing is known after, so no slice of `out` is walked
        for i in 0..self.len {
            let b = out.bindings[i];
            if seen.contains(b.id) {
                let renamed = b.drawn(max);
                max = renamed.id;
                out.bindings[i] = renamed;
            } else {
                // (In its place: by `add`, which gives a new set of 520 bytes, the same loop in plain Rust took twice as long for 16 bindings.)
                seen.ids[seen.len] = b.id;
                seen.len += 1;
            }
        }
        Freshened {
            context: out,
            max_id: max,
        }
    }
}
