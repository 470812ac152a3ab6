//! Divisors of 1 or more.
ghost use Rattle.std.specs.Prelude.{pos, ◌<ℤ◌};

/// A divisor: 1 or more.
#[derive(Clone, Copy)]
pub struct Divisor {
    pub value: i64,
    ghost above: { pos 0 <ℤ value },
}
