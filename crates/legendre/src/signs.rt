// The signs of the coefficients.
ghost use Rattle.std.specs.Prelude.{◌≡◌};
ghost use Rattle.legendre.specs.Outcome.{is_one_sign};
ghost use Rattle.legendre.specs.Search.{same_sign};

use crate::equation::Equation;

// Both above 0 or both below: at most three comparisons.
pub fn same_sign(a: i64, b: i64) -> bool
    ensures { result ≡ same_sign a b }
{
    // `(a > 0 && b > 0) || (a < 0 && b < 0)` makes a solve a tenth slower.
    if a > 0 { b > 0 } else { a < 0 && b < 0 }
}

impl Equation {
    // At most six comparisons.
    pub fn one_sign(self) -> bool
        ensures { result ≡ is_one_sign self.p self.g self.q }
    {
        same_sign(self.p, self.g) && same_sign(self.g, self.q)
    }
}
