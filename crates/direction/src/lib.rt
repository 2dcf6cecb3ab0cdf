// Directions from a base point: the point that a direction leads to, and the direction to a point.
#![tactic(auto)]

ghost use Rattle.std.specs.Prelude.{◌≡◌, T, IfOk, IfErr};
ghost use Rattle.point.specs.Legal.{is_direction};
ghost use Rattle.point.specs.Paper.{number, point_limit};
ghost use Rattle.point.specs.Sizes.{PointWithin};
ghost use Rattle.conic.specs.Base.{legal, refused, judged_of};
ghost use Rattle.conic.specs.Sizes.{ConicAt};
ghost use Rattle.direction.specs.Direction.{tangent, chord, point_from, direction_to, PointPromise, DirectionPromise};

use conic::base::judge;
use conic::conic::Conic;
use point::paper::Refusal;
use point::{Direction, Point};

// A legal base on its conic, so both are within the paper's limits.
#[derive(Clone, Copy)]
struct Base {
    h: Conic,
    p: Point,
    ghost within: { ConicAt h p },
}

// Four products and two differences. Points within the limit by clauses, here and in direction_to: of the target
// nothing more is asked, so a type for it would be made only to be taken apart.
fn chord(p: Point, q: Point) -> Direction
    requires { PointWithin point_limit p × PointWithin point_limit q }
    ensures { result ≡ chord p q }
{
    let Point { x, y, z } = p;
    Direction {
        u: q.x * z - x * q.z,
        v: q.y * z - y * q.z,
    }
}

impl Base {
    // What judging costs.
    fn judged(h: Conic, p: Point) -> Result<Base, Refusal>
        ensures ok { IfOk result (λ base. (base.h ≡ h) × (base.p ≡ p) × (legal ≡ judged_of h p)) }
        ensures err { IfErr result (λ r. refused (number r) ≡ judged_of h p) }
    {
        judge(h, p)?;
        Ok(Base { h, p })
    }

    // Two derivatives.
    fn tangent(self) -> Direction
        ensures { result ≡ tangent self.h self.p }
    {
        Direction {
            u: self.h.derivative_by_y(self.p),
            v: -self.h.derivative_by_x(self.p),
        }
    }

    // The chord's direction, or at the base itself the tangent's, in normal form: three comparisons, four products or
    // two derivatives, and two greatest common divisors.
    fn direction_to(self, q: Point) -> Direction
        requires { PointWithin point_limit q }
        ensures { result ≡ direction_to self.h self.p q }
    {
        let t = if q == self.p {
            self.tangent()
        } else {
            chord(self.p, q)
        };
        Direction::normal(t.u, t.v)
    }

    // 49 steps and two greatest common divisors.
    fn point_from(self, t: Direction) -> Point
        requires { T (is_direction t) }
        ensures { result ≡ point_from self.h self.p t }
    {
        let along = Point {
            x: t.u,
            y: t.v,
            z: 0,
        };
        self.h.other_point(self.p, along)
    }
}

// Direction to point, of any numbers: some hundred steps and four greatest common divisors.
pub fn point_of(h: Conic, base: Point, t: Direction) -> Result<Point, Refusal>
    ensures { PointPromise h base t result }
{
    let base = Base::judged(h, base)?;
    if t.is_direction() {
        Ok(base.point_from(t))
    } else {
        Err(Refusal::Direction)
    }
}

// Point to direction, of any numbers: some hundred steps and six greatest common divisors.
pub fn direction_of(h: Conic, base: Point, target: Point) -> Result<Direction, Refusal>
    ensures { DirectionPromise h base target result }
{
    let base = Base::judged(h, base)?;
    if !target.is_target() {
        return Err(Refusal::Target);
    }
    if h.at(target) == 0 {
        Ok(base.direction_to(target))
    } else {
        Err(Refusal::TargetOff)
    }
}
