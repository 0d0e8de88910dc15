// names.rs. Name numbers and variable IDs are types of their own, so that neither stands in for the other.
ghost use Rattle.std.specs.Prelude.{◌≡◌, ◌<◌, ◌^◌};
ghost use Rattle.syntax.specs.Fresh.{fresh, fresh_identifier};

// The number of one spelling. A label, a tag or a type is known by it alone.
#[derive(Clone, Copy, PartialEq, Eq)]
pub struct Name(pub u16);

// A variable is known by this alone.
// (A max_id that is read or written is a number, `u32`; `fresh` and `Freshened` have it as the ID that was drawn last, or would have been.)
#[derive(Clone, Copy, PartialEq, Eq)]
pub struct VarId(pub u32);

#[derive(Clone, Copy, PartialEq, Eq)]
pub struct Identifier {
    pub name: Name,
    pub id: VarId,
}

impl Identifier {
    // `fresh_identifier`: the ID drawn at a max_id, under this name. The ID is the max_id from then on.
    pub fn fresh(max_id: VarId, name: Name) -> Identifier
        requires { fresh max_id.0 < 2 ^ 32 }
        ensures { result ≡ fresh_identifier max_id.0 name }
    {
        Identifier {
            name,
            id: VarId(max_id.0 + 1),
        }
    }
}
