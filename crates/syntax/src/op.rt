// op.rs: the arithmetic operators, in the Rust's order.
#[derive(Clone, Copy, PartialEq, Eq)]
pub enum BinOp {
    Div,
    Prod,
    Rem,
    Sum,
    Sub,
}
