// Div and Rem, toward zero: no value for a divisor of 0, nor for -2^63 by -1.
ghost use Rattle.std.specs.Prelude.{◌≡◌};
ghost use Rattle.syntax.specs.declared.op.BinOp.TheVariants.{Div, Rem};
ghost use Rattle.model.specs.Integers.{eval_op};
ghost use Rattle.syntax.specs.Options.{option_of};

pub fn quotient(a: i64, b: i64) -> Option<i64>
    ensures { option_of result ≡ eval_op Div a b }
{
    a.checked_div(b)
}

pub fn remainder(a: i64, b: i64) -> Option<i64>
    ensures { option_of result ≡ eval_op Rem a b }
{
    a.checked_rem(b)
}
