// The kinds of records, and what a kind decides: the fixed part of a record, and the bodies that follow it.
ghost use Rattle.std.specs.Prelude.{◌≡◌, ◌≤◌, ◌<◌};
ghost use Rattle.image_spec.specs.Kinds.{kinds, fixed, bodies};
ghost use Rattle.image_kinds.specs.Codes.{code_of};

// Document 01's kinds, in the order of their bytes.
#[derive(Clone, Copy, PartialEq, Eq)]
pub enum Kind {
    Definition = 1,
    Substitute = 2,
    Call = 3,
    Let = 4,
    Switch = 5,
    Create = 6,
    Invoke = 7,
    Literal = 8,
    Op = 9,
    IfC = 10,
    Clause = 11,
    Print = 12,
    Exit = 13,
}

impl Kind {
    // The bytes of the fixed part (what stands before a list, a mark or a count, the kind byte too), with IDs of w bytes.
    pub fn fixed(self, w: usize) -> usize
        requires { w ≤ 8 }
        ensures { result ≡ «fixed» w (code_of self) }
    {
        match self {
            Kind::Substitute => 1,
            Kind::Definition | Kind::Call | Kind::Clause | Kind::Exit => 3 + w,
            Kind::IfC | Kind::Print => 4 + w,
            Kind::Literal => 11 + w,
            Kind::Switch | Kind::Create => 6 + (w + w),
            Kind::Let | Kind::Invoke | Kind::Op => 8 + (w + (w + w)),
        }
    }

    // The statements that follow, clauses apart.
    pub fn bodies(self) -> usize
        ensures { result ≡ «bodies» (code_of self) }
    {
        match self {
            Kind::Call | Kind::Switch | Kind::Invoke | Kind::Exit => 0,
            Kind::Definition
            | Kind::Substitute
            | Kind::Let
            | Kind::Create
            | Kind::Literal
            | Kind::Op
            | Kind::Clause
            | Kind::Print => 1,
            Kind::IfC => 2,
        }
    }
}

// The same of a kind's byte, for who has no `Kind`; 0 is no kind, and decides nothing.
pub fn fixed_of(code: u8, w: usize) -> usize
    requires { (code < kinds) × (w ≤ 8) }
    ensures { result ≡ «fixed» w code }
{
    match Kind::try_from(code) {
        Ok(kind) => kind.fixed(w),
        Err(_) => 0,
    }
}

pub fn bodies_of(code: u8) -> usize
    requires { code < kinds }
    ensures { result ≡ «bodies» code }
{
    match Kind::try_from(code) {
        Ok(kind) => kind.bodies(),
        Err(_) => 0,
    }
}
