// Sum, Sub and Prod: the low 64 bits of the result.
ghost use Rattle.std.specs.Prelude.{◌≡◌};
ghost use Rattle.std.proofs.Math.Option.{some};
ghost use Rattle.syntax.specs.declared.op.BinOp.TheVariants.{Prod, Sum, Sub};
ghost use Rattle.model.specs.Integers.{eval_op};

pub fn sum(a: i64, b: i64) -> i64
    ensures { eval_op Sum a b ≡ some result }
{
    a.wrapping_add(b)
}

pub fn difference(a: i64, b: i64) -> i64
    ensures { eval_op Sub a b ≡ some result }
{
    a.wrapping_sub(b)
}

pub fn product(a: i64, b: i64) -> i64
    ensures { eval_op Prod a b ≡ some result }
{
    a.wrapping_mul(b)
}
