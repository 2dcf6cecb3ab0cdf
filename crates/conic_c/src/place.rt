// An answer into lent places, and its code. Codes and places are the C interface.
ghost use Rattle.std.specs.Prelude.{◌≡◌};
ghost use Rattle.point.specs.Paper.{number};
ghost use Rattle.solve.specs.Answer.{answered};
ghost use Rattle.book.specs.Reader.{stored};
ghost use Rattle.conic_c.specs.Codes.{refused};
ghost use Rattle.conic_c.specs.Places.{coordinates, coefficients, components, HandedVerdict, HandedEntry};

use book::Stored;
use conic::conic::Conic;
use point::paper::Refusal;
use point::{Direction, Point};
use solve::{Answer, Reason};

// The code of a refusal: one negation.
pub fn refused(refusal: Refusal) -> i64
    ensures { result ≡ refused (number refusal) }
{
    -(refusal.number() as i64)
}

// Three stores. No `From` of arrays: each impl would be these lines again, in the crate of the type.
pub fn put_point(p: Point, place: &mut [i64; 3])
    ensures { place.new ≡ coordinates p }
{
    *place = [p.x, p.y, p.z];
}

// Two stores.
pub fn put_direction(t: Direction, place: &mut [i64; 2])
    ensures { place.new ≡ components t }
{
    *place = [t.u, t.v];
}

// Six stores.
fn put_conic(h: Conic, place: &mut [i64; 6])
    ensures { place.new ≡ coefficients h }
{
    *place = [h.a, h.b, h.c, h.d, h.e, h.f];
}

// The code of an answer; at most three stores.
pub fn put_answer(answer: Answer, point: &mut [i64; 3], prime: &mut u64) -> i64
    ensures { HandedVerdict (answered answer) point.old prime.old result point.new prime.new }
{
    match answer {
        Ok(p) => {
            put_point(p, point);
            1
        },
        Err(Reason::Sign) => 2,
        Err(Reason::Prime(l)) => {
            *prime = l;
            3
        },
    }
}

// The code of a stored answer; at most nine stores.
pub fn put_entry(
    h: Conic,
    content: Stored,
    conic: &mut [i64; 6],
    point: &mut [i64; 3],
    prime: &mut u64,
) -> i64
    ensures { HandedEntry (stored h content) conic.old point.old prime.old result
        conic.new point.new prime.new }
{
    put_conic(h, conic);
    match content {
        Some(answer) => put_answer(answer, point, prime),
        None => 4,
    }
}
