// Points and directions, and their normal forms.
#![tactic(auto)]

ghost use Rattle.std.specs.Prelude.{◌≡◌};
ghost use Rattle.point.specs.Normal.{common_factor, leading, signed, over, largest};
ghost use Rattle.point.specs.Normal.{normal_within, normal_direction_within};
ghost use Rattle.point.specs.Paper.{within, point_in_limit, direction_in_limit};
ghost use Rattle.point.specs.Legal.{is_normal, is_base, is_target, is_direction};
ghost use Rattle.point.specs.Sizes.{PointWithin};

use crate::paper::{DIRECTION_LIMIT, POINT_LIMIT};
use number::euclid::gcd;

pub mod paper;
pub mod size;

// A point: three whole numbers, up to a common factor.
#[derive(Clone, Copy, PartialEq, Eq)]
pub struct Point {
    pub x: i64,
    pub y: i64,
    pub z: i64,
}

// A direction: two whole numbers, up to a common factor.
#[derive(Clone, Copy)]
pub struct Direction {
    pub u: i64,
    pub v: i64,
}

// Whether n has a negation, as all but -2⁶³ have: one comparison.
fn has_negation(n: i64) -> bool
    ensures { result ≡ within largest n }
{
    n > i64::MIN
}

impl Point {
    // The triple that is no point.
    pub const ZERO: Point = Point { x: 0, y: 0, z: 0 };

    // The three trial lines.
    pub const FIRST_LINE: Point = Point { x: 0, y: 0, z: 1 };

    pub const SECOND_LINE: Point = Point { x: 1, y: 0, z: 1 };

    pub const THIRD_LINE: Point = Point { x: 0, y: 1, z: 1 };

    // The normal form of (x, y, z). Some thirty steps and two greatest common divisors. (0, 0, 0) stands for none,
    // and is no Option, since `normal_within` says so of a public function.
    pub fn normal(x: i64, y: i64, z: i64) -> Point
        ensures { result ≡ normal_within (record { x = x; y = y; z = z }) }
    {
        if has_negation(x) & has_negation(y) & has_negation(z) {
            let p = Point { x, y, z };
            p.over(p.divisor())
        } else {
            Point::ZERO
        }
    }

    // Two greatest common divisors.
    fn common_factor(self) -> u64
        ensures { result ≡ common_factor self }
    {
        gcd(
            gcd(whole::magnitude(self.x), whole::magnitude(self.y)),
            whole::magnitude(self.z),
        )
    }

    // The first nonzero of z, x, y: at most two comparisons.
    fn leading(self) -> i64
        ensures { result ≡ leading self }
    {
        if self.z != 0 {
            self.z
        } else if self.x != 0 {
            self.x
        } else {
            self.y
        }
    }

    // The common factor, with the sign of the first nonzero number: two greatest common divisors.
    fn divisor(self) -> i64
        requires { PointWithin largest self }
        ensures { result ≡ signed (leading self) (common_factor self) }
    {
        let factor = self.common_factor() as i64;
        if self.leading() < 0 { -factor } else { factor }
    }

    // Three divisions, exact where n divides the three numbers. By 0 it is (0, 0, 0), as its definition says.
    fn over(self, n: i64) -> Point
        requires { PointWithin largest self }
        ensures { result ≡ over n self }
    {
        if n == 0 {
            return Point::ZERO;
        }
        let Point { x, y, z } = self;
        Point {
            x: x / n,
            y: y / n,
            z: z / n,
        }
    }

    // Three comparisons.
    fn in_limit(self) -> bool
        ensures { result ≡ point_in_limit self }
    {
        size::all_within(self.x, self.y, self.z, POINT_LIMIT)
    }

    // Two greatest common divisors.
    fn is_normal(self) -> bool
        ensures { result ≡ is_normal self }
    {
        (self.common_factor() == 1) & (self.leading() > 0)
    }

    // Eight comparisons and two greatest common divisors.
    pub fn is_base(self) -> bool
        ensures { result ≡ is_base self }
    {
        self.is_target() & (self.z > 0)
    }

    // Seven comparisons and two greatest common divisors.
    pub fn is_target(self) -> bool
        ensures { result ≡ is_target self }
    {
        self.in_limit() & self.is_normal()
    }
}

impl Direction {
    // The normal form of (u, v), that of the point (u, v, 0) at infinity, at the same cost.
    pub fn normal(u: i64, v: i64) -> Direction
        ensures { result ≡ normal_direction_within (record { u = u; v = v }) }
    {
        let p = Point::normal(u, v, 0);
        Direction { u: p.x, v: p.y }
    }

    // Two comparisons.
    fn in_limit(self) -> bool
        ensures { result ≡ direction_in_limit self }
    {
        size::within(self.u, DIRECTION_LIMIT) & size::within(self.v, DIRECTION_LIMIT)
    }

    // Four comparisons.
    pub fn is_direction(self) -> bool
        ensures { result ≡ is_direction self }
    {
        !(size::is_zero(self.u) & size::is_zero(self.v)) & self.in_limit()
    }
}
