// Base points, and the answers of the two direction steps.
use crate::print::Shown;
use conic::conic::Conic;
use point::{Direction, Point};
use std::fmt::{self, Display};
use std::io;

// From a base along a direction; shown with the point that it leads to.
#[derive(Drop)]
pub struct PointRow(Conic, Point, Direction);

impl Display for PointRow {
    fn fmt<W: fmt::Write>(&self, f: &mut fmt::Formatter<W>) -> fmt::Result {
        let PointRow(h, base, t) = *self;
        let reached = Shown(direction::point_of(h, base, t));
        let Point { x, y, z } = base;
        let Direction { u, v } = t;
        write!(f, "{} from {x} {y} {z} along {u} {v}: {reached}", Shown(h))
    }
}

// From a base to a target; shown with the direction that leads there.
#[derive(Drop)]
pub struct DirectionRow(Conic, Point, Point);

impl Display for DirectionRow {
    fn fmt<W: fmt::Write>(&self, f: &mut fmt::Formatter<W>) -> fmt::Result {
        let DirectionRow(h, base, target) = *self;
        let directed = Shown(direction::direction_of(h, base, target));
        let Point { x, y, z } = base;
        write!(f, "{} from {x} {y} {z}", Shown(h))?;
        let Point { x, y, z } = target;
        write!(f, " to {x} {y} {z}: {directed}")
    }
}

const CIRCLE: Conic = Conic {
    a: 1,
    b: 0,
    c: 1,
    d: 0,
    e: 0,
    f: -1,
};

const HYPERBOLA: Conic = Conic {
    a: 0,
    b: 1,
    c: 0,
    d: 0,
    e: 0,
    f: -1,
};

const PARABOLA: Conic = Conic {
    a: 1,
    b: 0,
    c: 0,
    d: 0,
    e: -1,
    f: 0,
};

// The two lines x = y and x = -y.
const LINES: Conic = Conic {
    a: 1,
    b: 0,
    c: -1,
    d: 0,
    e: 0,
    f: 0,
};

const OUT_OF_RANGE: Conic = Conic {
    a: 41,
    b: 0,
    c: 0,
    d: 0,
    e: 0,
    f: 0,
};

const EAST: Point = Point { x: 1, y: 0, z: 1 };

const UNIT: Point = Point { x: 1, y: 1, z: 1 };

const ORIGIN: Point = Point { x: 0, y: 0, z: 1 };

const ACROSS: Direction = Direction { u: 1, v: 0 };

const UP: Direction = Direction { u: 0, v: 1 };

pub const STEPS: [PointRow; 10] = [
    PointRow(CIRCLE, EAST, Direction { u: 1, v: -2 }),
    PointRow(CIRCLE, EAST, ACROSS),
    PointRow(CIRCLE, EAST, UP),
    PointRow(CIRCLE, EAST, Direction { u: 10000, v: -9999 }),
    PointRow(HYPERBOLA, UNIT, ACROSS),
    PointRow(HYPERBOLA, UNIT, UP),
    PointRow(HYPERBOLA, UNIT, Direction { u: 1, v: -1 }),
    PointRow(PARABOLA, ORIGIN, UP),
    PointRow(PARABOLA, ORIGIN, ACROSS),
    PointRow(PARABOLA, ORIGIN, Direction { u: 2, v: -3 }),
];

pub const BACK: [DirectionRow; 9] = [
    DirectionRow(CIRCLE, EAST, Point { x: 3, y: 4, z: 5 }),
    DirectionRow(CIRCLE, EAST, Point { x: -1, y: 0, z: 1 }),
    DirectionRow(CIRCLE, EAST, EAST),
    DirectionRow(HYPERBOLA, UNIT, Point { x: 1, y: 0, z: 0 }),
    DirectionRow(HYPERBOLA, UNIT, Point { x: 0, y: 1, z: 0 }),
    DirectionRow(HYPERBOLA, UNIT, UNIT),
    DirectionRow(PARABOLA, ORIGIN, Point { x: 0, y: 1, z: 0 }),
    DirectionRow(PARABOLA, ORIGIN, ORIGIN),
    DirectionRow(PARABOLA, ORIGIN, Point { x: -6, y: 9, z: 4 }),
];

// In each of the first four rows two refusals apply, next to each other in the order.
pub const REFUSED_STEPS: [PointRow; 10] = [
    PointRow(OUT_OF_RANGE, EAST, ACROSS),
    PointRow(LINES, Point { x: 2, y: 2, z: 2 }, ACROSS),
    PointRow(CIRCLE, Point { x: 2, y: 2, z: 2 }, ACROSS),
    PointRow(CIRCLE, UNIT, Direction { u: 0, v: 0 }),
    PointRow(CIRCLE, EAST, Direction { u: 0, v: 0 }),
    PointRow(CIRCLE, EAST, Direction { u: 10001, v: 0 }),
    PointRow(CIRCLE, EAST, Direction { u: 0, v: i64::MIN }),
    PointRow(
        CIRCLE,
        Point {
            x: i64::MIN,
            y: 0,
            z: 1,
        },
        ACROSS,
    ),
    PointRow(CIRCLE, Point { x: -1, y: 0, z: -1 }, ACROSS),
    PointRow(HYPERBOLA, Point { x: 1, y: 0, z: 0 }, ACROSS),
];

// In each of the first five rows two refusals apply, next to each other in the order.
pub const REFUSED_BACK: [DirectionRow; 10] = [
    DirectionRow(OUT_OF_RANGE, EAST, EAST),
    DirectionRow(LINES, Point { x: 2, y: 2, z: 2 }, EAST),
    DirectionRow(CIRCLE, Point { x: 2, y: 2, z: 2 }, EAST),
    DirectionRow(CIRCLE, UNIT, Point::ZERO),
    DirectionRow(CIRCLE, EAST, Point { x: 2, y: 2, z: 2 }),
    DirectionRow(CIRCLE, EAST, UNIT),
    DirectionRow(CIRCLE, EAST, Point::ZERO),
    DirectionRow(
        CIRCLE,
        EAST,
        Point {
            x: 160000001,
            y: 0,
            z: 1,
        },
    ),
    DirectionRow(
        CIRCLE,
        EAST,
        Point {
            x: 0,
            y: i64::MIN,
            z: 1,
        },
    ),
    DirectionRow(CIRCLE, EAST, Point { x: 0, y: -1, z: 0 }),
];

// There and back.
fn round_trip(rt: &impl Print, u: i64, v: i64) -> io::Result<()> {
    let h = Conic {
        a: 1,
        b: 1,
        c: 1,
        d: 1,
        e: 0,
        f: -1,
    };
    let base = Point { x: -4, y: 5, z: 3 };
    let t = Direction { u, v };
    println!(rt; "{}", PointRow(h, base, t))?;
    if let Ok(p) = direction::point_of(h, base, t) {
        println!(rt; "{}", DirectionRow(h, base, p))?;
    }
    Ok(())
}

pub fn round_trips(rt: &impl Print) -> io::Result<()> {
    println!(rt; "there and back")?;
    for n in 0..13 {
        round_trip(rt, 3, n)?;
        round_trip(rt, n, -5)?;
    }
    Ok(())
}
