//! The two factors with which a pivot combines two rows.
ghost use Rattle.std.specs.Prelude.{◌^◌, ◌≤◌, unsigned_abs};

/// Two numbers from -2^30 to 2^30.
#[derive(Clone, Copy)]
pub struct Pair {
    pub a: i64,
    pub b: i64,
    ghost small_a: { unsigned_abs a ≤ 2 ^ 30 },
    ghost small_b: { unsigned_abs b ≤ 2 ^ 30 },
}
