// Tests of a number's size, for every number.
ghost use Rattle.std.specs.Prelude.{◌≡◌, ◌&&◌};
ghost use Rattle.point.specs.Paper.{within, is_zero};

// Whether n is at most the limit in size: one comparison.
pub fn within(n: i64, limit: u32) -> bool
    ensures { result ≡ within limit n }
{
    n.unsigned_abs() <= u64::from(limit)
}

// Three comparisons.
pub fn all_within(x: i64, y: i64, z: i64, limit: u32) -> bool
    ensures { result ≡ within limit x && within limit y && within limit z }
{
    within(x, limit) & within(y, limit) & within(z, limit)
}

// One comparison.
pub fn is_zero(n: i64) -> bool
    ensures { result ≡ is_zero n }
{
    n == 0
}
