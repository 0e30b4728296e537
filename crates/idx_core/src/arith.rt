// Arithmetic on integers of 64 bits.
ghost use Rattle.std.specs.Prelude.{◌≡◌};
ghost use Rattle.idx_core.specs.Arith as spec;

/// An arithmetic operation of the source and of every calculus below it.
#[derive(Clone, Copy, Debug, PartialEq, Eq)]
pub enum Op {
    Add,
    Sub,
    Mul,
}

/// The 64-bit result of an operation, which wraps (own choice).
pub fn compute(op: Op, left: i64, right: i64) -> i64
    ensures { result ≡ spec.compute op left right }
{
    match op {
        Op::Add => left.wrapping_add(right),
        Op::Sub => left.wrapping_sub(right),
        Op::Mul => left.wrapping_mul(right),
    }
}
