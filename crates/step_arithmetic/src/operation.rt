// op.rs: an Op, a case for each operator in the order of BinOp.
ghost use Rattle.std.specs.Prelude.{◌≡◌};
ghost use Rattle.model.specs.Integers.{eval_op};
ghost use Rattle.syntax.specs.Options.{option_of};

use crate::division::{quotient, remainder};
use crate::wrapping::{difference, product, sum};
use syntax::op::BinOp;

pub fn evaluate(op: BinOp, a: i64, b: i64) -> Option<i64>
    ensures { option_of result ≡ eval_op op a b }
{
    match op {
        BinOp::Div => quotient(a, b),
        BinOp::Prod => Some(product(a, b)),
        BinOp::Rem => remainder(a, b),
        BinOp::Sum => Some(sum(a, b)),
        BinOp::Sub => Some(difference(a, b)),
    }
}
