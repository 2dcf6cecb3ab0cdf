// The levelled equation pX² + gY² + qW² = 0 of a conic, with D = pg·s² and aΔ = gq·t², and the way back from its
// solutions.
ghost use Rattle.std.specs.Prelude.{◌≡◌, ◌≢◌, pos};
ghost use Rattle.conic.specs.Form.{D};
ghost use Rattle.solve.specs.Level.{level_from, level_of, primed, from_primed, carried_back};
ghost use Rattle.solve.specs.Sizes.{PartsWithin, Carries, PrimedWithin};

use crate::Curve;
use conic::conic::Conic;
use legendre::outcome::Triple;
use number::euclid::gcd;
use number::splitting::{Parts, split};
use point::Point;

#[derive(Clone, Copy)]
pub struct Level {
    pub p: i64,
    pub g: i64,
    pub q: i64,
    pub s: i64,
    pub t: i64,
}

impl Level {
    // Two splits and a greatest common divisor.
    pub fn of(curve: Curve) -> Level
        requires { D curve.h ≢ pos 0 }
        ensures { result ≡ level_of curve.h }
    {
        let h = curve.h;
        Level::from_parts(split(h.discriminant()), split(h.a * h.determinant()))
    }

    // From the parts of D = ds² and aΔ = et²: a greatest common divisor and two divisions.
    fn from_parts(d: Parts, e: Parts) -> Level
        requires { PartsWithin d e }
        ensures { result ≡ level_from d.free d.square e.free e.square }
    {
        let g = gcd(whole::magnitude(d.free), whole::magnitude(e.free)) as i64;
        Level {
            p: d.free / g,
            g,
            q: e.free / g,
            s: d.square as i64,
            t: e.square as i64,
        }
    }

    // (X', Y', W') = (tX, stgY, sW): five products.
    fn primed(self, m: Triple) -> Point
        requires { Carries self m }
        ensures { result ≡ primed self m }
    {
        let Level { g, s, t, .. } = self;
        let Triple { x, y, w } = m;
        Point {
            x: t * (x as i64),
            y: s * (t * (g * (y as i64))),
            z: s * (w as i64),
        }
    }

    // The point of the curve, this being its level, from a solution of the equation: 33 steps and a normal form.
    pub fn carried_back(self, curve: Curve, m: Triple) -> Point
        requires { Carries self m }
        ensures { result ≡ carried_back curve.h self m }
    {
        let p = curve.from_primed(self.primed(m));
        Point::normal(p.x, p.y, p.z)
    }
}

impl Curve {
    // x = 2DX' - 2bY' + bkW' - dDW', y = 4aY' - 2akW', z = 2aDW': 28 steps.
    fn from_primed(self, m: Point) -> Point
        requires { PrimedWithin m }
        ensures { result ≡ from_primed self.h m }
    {
        let Conic { a, b, d, .. } = self.h;
        let Point { x, y, z } = m;
        let discriminant = self.h.discriminant();
        let k = self.h.k();
        Point {
            x: 2 * discriminant * x - 2 * b * y + b * k * z - d * discriminant * z,
            y: 4 * a * y - 2 * a * k * z,
            z: 2 * a * discriminant * z,
        }
    }
}
