// types.rs. Type declarations pass by, so a declared type is its name only.
ghost use Rattle.std.specs.Prelude.{◌≡◌};
ghost use Rattle.syntax.specs.Types.{declared_ty, identifier_of};

use crate::names::{Identifier, Name, VarId};

#[derive(Clone, Copy, PartialEq, Eq)]
pub enum Ty {
    I64,
    Decl(Identifier),
}

impl Ty {
    pub fn declared(self) -> bool
        ensures { result ≡ declared_ty self }
    {
        matches!(self, Ty::Decl(_))
    }

    // The identifier of a declared type. I64 has none, and 0 stands for it.
    // (No `Option`: its one caller stores it beside `declared`, and would make these zeros of a None.)
    pub fn identifier(self) -> Identifier
        ensures { result ≡ identifier_of self }
    {
        match self {
            Ty::I64 => Identifier {
                name: Name(0),
                id: VarId(0),
            },
            Ty::Decl(x) => x,
        }
    }
}
