// A conic: the row of its six coefficients; its polynomial G, the partial derivatives, L, D, Δ and k, and the
// second point of a line.
ghost use Rattle.std.specs.Prelude.{◌≡◌, ◌*ℤ◌, ◌+ℤ◌};
ghost use Rattle.point.specs.Normal.{normal};
ghost use Rattle.conic.specs.Base.{in_range};
ghost use Rattle.conic.specs.Form.{G, Gx, Gy, Gz, L, D, Δ, k, drawn};
ghost use Rattle.conic.specs.Sizes.{ProductsFit, InLimit, ConicAt, ConicAlong};

use point::paper::COEFFICIENT_LIMIT;
use point::{Point, size};

#[derive(Clone, Copy)]
pub struct Conic {
    pub a: i64,
    pub b: i64,
    pub c: i64,
    pub d: i64,
    pub e: i64,
    pub f: i64,
}

// The sum of three products: five steps.
fn dot(a: i64, b: i64, c: i64, x: i64, y: i64, z: i64) -> i64
    requires { ProductsFit a b c x y z }
    ensures { result ≡ a *ℤ x +ℤ b *ℤ y +ℤ c *ℤ z }
{
    a * x + b * y + c * z
}

// The polynomials ask by clauses that a conic is in limit and a point within one: docs/PROMISES.md has these
// functions of any conic and any point that meet them, so no type stands for either.
impl Conic {
    // Whether each coefficient, any number, is within the limit: six comparisons.
    pub fn in_range(self) -> bool
        ensures { result ≡ in_range self }
    {
        size::all_within(self.a, self.b, self.c, COEFFICIENT_LIMIT)
            & size::all_within(self.d, self.e, self.f, COEFFICIENT_LIMIT)
    }

    // D: four steps.
    pub fn discriminant(self) -> i64
        requires { InLimit self }
        ensures { result ≡ D self }
    {
        4 * self.a * self.c - self.b * self.b
    }

    // Δ: fifteen steps.
    pub fn determinant(self) -> i64
        requires { InLimit self }
        ensures { result ≡ Δ self }
    {
        let Conic { a, b, c, d, e, f } = self;
        4 * a * c * f + b * d * e - a * (e * e) - c * (d * d) - f * (b * b)
    }

    // k: four steps.
    pub fn k(self) -> i64
        requires { InLimit self }
        ensures { result ≡ k self }
    {
        2 * self.a * self.e - self.b * self.d
    }

    // G at a point: seventeen steps.
    pub fn at(self, p: Point) -> i64
        requires { ConicAt self p }
        ensures { result ≡ G self p }
    {
        let Point { x, y, z } = p;
        dot(self.a, self.c, self.f, x * x, y * y, z * z)
            + dot(self.b, self.d, self.e, x * y, x * z, y * z)
    }

    // Six steps, as those by y and by z. Three functions, not one of the variable's number: docs/PROMISES.md names
    // two of them, and each doubles another coefficient.
    pub fn derivative_by_x(self, p: Point) -> i64
        requires { ConicAt self p }
        ensures { result ≡ Gx self p }
    {
        dot(2 * self.a, self.b, self.d, p.x, p.y, p.z)
    }

    pub fn derivative_by_y(self, p: Point) -> i64
        requires { ConicAt self p }
        ensures { result ≡ Gy self p }
    {
        dot(self.b, 2 * self.c, self.e, p.x, p.y, p.z)
    }

    fn derivative_by_z(self, p: Point) -> i64
        requires { ConicAt self p }
        ensures { result ≡ Gz self p }
    {
        dot(self.d, self.e, 2 * self.f, p.x, p.y, p.z)
    }

    // L(S, T), the derivative at S along T: 23 steps.
    pub fn derivative_along(self, s: Point, t: Point) -> i64
        requires { ConicAlong self s t }
        ensures { result ≡ L self s t }
    {
        dot(
            t.x,
            t.y,
            t.z,
            self.derivative_by_x(s),
            self.derivative_by_y(s),
            self.derivative_by_z(s),
        )
    }

    // G(T)·S - L(S, T)·T: 49 steps.
    fn drawn(self, s: Point, t: Point) -> Point
        requires { ConicAlong self s t }
        ensures { result ≡ drawn self s t }
    {
        let g = self.at(t);
        let l = self.derivative_along(s, t);
        Point {
            x: g * s.x - l * t.x,
            y: g * s.y - l * t.y,
            z: g * s.z - l * t.z,
        }
    }

    // Where the line from S along T meets the conic again: 49 steps and a normal form.
    pub fn other_point(self, s: Point, t: Point) -> Point
        requires { ConicAlong self s t }
        ensures { result ≡ normal (drawn self s t) }
    {
        let p = self.drawn(s, t);
        Point::normal(p.x, p.y, p.z)
    }
}
