// The point of a conic whose -D is a square: from its point at infinity, along the first trial line that leads on.
ghost use Rattle.std.specs.Prelude.{◌≡◌, neg_ℤ};
ghost use Rattle.conic.specs.Form.{D};
ghost use Rattle.point.specs.Paper.{point_limit};
ghost use Rattle.point.specs.Sizes.{PointWithin};
ghost use Rattle.solve.specs.Solve.{is_square_number, start_at_infinity, trial_line, from_infinity};

use crate::Curve;
use conic::conic::Conic;
use number::roots;
use point::Point;

impl Curve {
    // Whether -D is a square: one square test.
    pub(crate) fn has_square_discriminant(self) -> bool
        ensures { result ≡ is_square_number (neg_ℤ (D self.h)) }
    {
        let minus = -self.h.discriminant();
        minus >= 0 && roots::is_square(whole::magnitude(minus))
    }

    // S, where -D is the square of the root: one root.
    fn start(self) -> Point
        ensures { result ≡ start_at_infinity self.h }
    {
        let Conic { a, b, .. } = self.h;
        if a == 0 {
            return Point { x: 1, y: 0, z: 0 };
        }
        let root = roots::root(whole::magnitude(self.h.discriminant())) as i64;
        Point {
            x: root - b,
            y: 2 * a,
            z: 0,
        }
    }

    // The first T with L(S, T) not 0: at most two derivatives. Test by test, since the edit
    // first_line_judged_by_second tells the two apart.
    fn trial_line(self, s: Point) -> Point
        requires { PointWithin point_limit s }
        ensures { result ≡ trial_line self.h s }
    {
        if self.h.derivative_along(s, Point::FIRST_LINE) != 0 {
            return Point::FIRST_LINE;
        }
        if self.h.derivative_along(s, Point::SECOND_LINE) != 0 {
            return Point::SECOND_LINE;
        }
        Point::THIRD_LINE
    }

    // One root, some hundred steps, and two greatest common divisors.
    pub(crate) fn from_infinity(self) -> Point
        ensures { result ≡ from_infinity self.h }
    {
        let s = self.start();
        self.h.other_point(s, self.trial_line(s))
    }
}
