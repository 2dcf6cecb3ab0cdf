// The walk of the box, W by W and X by X, to the first solution.
ghost use Rattle.std.specs.Prelude.{◌≡◌, ◌*◌, ◌^◌, pos, ◌+ℤ◌, ◌*ℤ◌, ◌≤◌, nat_abs};
ghost use Rattle.legendre.specs.Outcome as Outcome;
ghost use Rattle.legendre.specs.Equation.{SolvableInBox};
ghost use Rattle.legendre.specs.Search.{HeightAt, FirstInRow};
ghost use Rattle.legendre.specs.Reach.{Row, Place, Terms};

use crate::equation::Equation;
use crate::outcome::Triple;
use crate::signs::same_sign;
use number::roots::{is_square, root};
use whole::magnitude;

impl Equation {
    // pX² + qW²: four products and a sum.
    fn terms(self, w: u64, x: u64) -> i64
        requires { Terms self.p self.q w x }
        ensures { result ≡ self.p *ℤ pos (x * x) +ℤ self.q *ℤ pos (w * w) }
    {
        self.p * ((x * x) as i64) + self.q * ((w * w) as i64)
    }

    // The Y of the box's solution with this W and X: the terms, a division where they and g differ in sign, a square
    // test where the division leaves nothing and the quotient is within the box, and a root where that is a square.
    fn height(self, w: u64, x: u64) -> Option<u64>
        requires { Place self.p self.g self.q w x }
        ensures { HeightAt self.p self.g self.q w x result }
    {
        let value = self.terms(w, x);
        if same_sign(value, self.g) {
            return None;
        }
        let size = magnitude(value);
        let divisor = magnitude(self.g);
        if size % divisor != 0 {
            return None;
        }
        let square = size / divisor;
        if square > magnitude(self.p * self.q) {
            return None;
        }
        if x + square + w == 0 {
            return None;
        }
        is_square(square).then(|| root(square))
    }

    // At most √|gq| + 1 heights; the side is the same for every row.
    fn row(self, side: u64, w: u64) -> Option<(u64, u64)>
        requires row { Row self.p self.g w }
        requires side { side ≡ Outcome.side self.g self.q }
        ensures { FirstInRow self.p self.g self.q w result }
    {
        for x in 0..side {
            if let Some(y) = self.height(w, x) {
                return Some((x, y));
            }
        }
        None
    }

    // At most √|pg| + 1 rows: the row of a solution in the box ends the walk.
    pub fn chosen(self) -> Triple
        requires { SolvableInBox self.p self.g self.q }
        ensures { result ≡ Outcome.chosen self.p self.g self.q }
    {
        let width = side(self.g, self.q);
        for w in 0..side(self.p, self.g) {
            if let Some((x, y)) = self.row(width, w) {
                return Triple { x, y, w };
            }
        }
        unreachable!()
    }
}

// How many numbers from 0 up have a square of at most |ab|: a product and a root.
fn side(a: i64, b: i64) -> u64
    requires { nat_abs (a *ℤ b) ≤ 2 ^ 60 }
    ensures { result ≡ Outcome.side a b }
{
    root(magnitude(a * b)) + 1
}
