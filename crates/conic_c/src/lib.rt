// The library for callers in C and Rust: six functions in flat form, each for every input. An answer's code is 0 or
// more, a refusal's is minus the paper's number; exactly the places named for a code are written. Numbers that stand
// apart, codes and places are the C interface.
#![tactic(auto)]

ghost use Rattle.conic_c.specs.Promises.{ConicSolve, ConicPoint, ConicDirection};
ghost use Rattle.conic_c.specs.Promises.{ConicRow, ConicBookWrite, ConicBookRead};

use conic::conic::Conic;
use point::{Direction, Point};

mod place;

// 1: the point; 2, none by sign: nothing; 3, none by a prime: the prime. The cost is solve's and at most three stores.
// Not by map_or_else: tried, and the proof did not close.
#[unsafe(no_mangle)]
pub extern "C" fn conic_solve(
    a: i64,
    b: i64,
    c: i64,
    d: i64,
    e: i64,
    f: i64,
    point: &mut [i64; 3],
    prime: &mut u64,
) -> i64
    ensures { ConicSolve (record { a = a; b = b; c = c; d = d; e = e; f = f })
        point.old prime.old result point.new prime.new }
{
    match solve::solve(Conic { a, b, c, d, e, f }) {
        Ok(answer) => place::put_answer(answer, point, prime),
        Err(refusal) => place::refused(refusal),
    }
}

// 0: the point to which the direction (u, v) leads from the base. The cost is the step's and three stores.
#[unsafe(no_mangle)]
pub extern "C" fn conic_point(
    a: i64,
    b: i64,
    c: i64,
    d: i64,
    e: i64,
    f: i64,
    px: i64,
    py: i64,
    pz: i64,
    u: i64,
    v: i64,
    point: &mut [i64; 3],
) -> i64
    ensures { ConicPoint (record { a = a; b = b; c = c; d = d; e = e; f = f }) (record { x = px; y = py; z = pz })
        (record { u = u; v = v }) point.old result point.new }
{
    let h = Conic { a, b, c, d, e, f };
    let base = Point {
        x: px,
        y: py,
        z: pz,
    };
    match direction::point_of(h, base, Direction { u, v }) {
        Ok(p) => {
            place::put_point(p, point);
            0
        },
        Err(refusal) => place::refused(refusal),
    }
}

// 0: the direction that leads from the base to the target. The cost is the step's and two stores.
#[unsafe(no_mangle)]
pub extern "C" fn conic_direction(
    a: i64,
    b: i64,
    c: i64,
    d: i64,
    e: i64,
    f: i64,
    px: i64,
    py: i64,
    pz: i64,
    qx: i64,
    qy: i64,
    qz: i64,
    direction: &mut [i64; 2],
) -> i64
    ensures { ConicDirection (record { a = a; b = b; c = c; d = d; e = e; f = f }) (record { x = px; y = py; z = pz })
        (record { x = qx; y = qy; z = qz }) direction.old result direction.new }
{
    let h = Conic { a, b, c, d, e, f };
    let base = Point {
        x: px,
        y: py,
        z: pz,
    };
    let target = Point {
        x: qx,
        y: qy,
        z: qz,
    };
    match direction::direction_of(h, base, target) {
        Ok(t) => {
            place::put_direction(t, direction);
            0
        },
        Err(refusal) => place::refused(refusal),
    }
}

// The length of the row that was written, with its line feed. The cost is the row's.
#[unsafe(no_mangle)]
pub extern "C" fn conic_row(text: &[u8], out: &mut [u8]) -> i64
    ensures { ConicRow text.now out.old result out.new }
{
    match row::row(text, out) {
        Ok(n) => n as i64,
        Err(refusal) => place::refused(refusal),
    }
}

// The length of the book that was written. The cost is the writer's. The arms are those of `conic_row`: a function for
// both would ask that a length fits a code, which only each writer's promise says.
#[tactic(auto, using(crate::proofs::Lengths::book_within))]
#[unsafe(no_mangle)]
pub extern "C" fn conic_book_write(list: &[u8], book: &mut [u8]) -> i64
    ensures { ConicBookWrite list.now book.old result book.new }
{
    match book_writer::write(list, book) {
        Ok(n) => n as i64,
        Err(refusal) => place::refused(refusal),
    }
}

// 1: the conic and the point; 2, none by sign, and 4, degenerate: the conic; 3, none by a prime: the conic and the
// prime. The cost is the reader's and at most nine stores.
#[unsafe(no_mangle)]
pub extern "C" fn conic_book_read(
    book: &[u8],
    number: u64,
    conic: &mut [i64; 6],
    point: &mut [i64; 3],
    prime: &mut u64,
) -> i64
    ensures { ConicBookRead book.now number conic.old point.old prime.old result
        conic.new point.new prime.new }
{
    match book_reader::read(book, number) {
        Ok((h, stored)) => place::put_entry(h, stored, conic, point, prime),
        Err(refusal) => place::refused(refusal),
    }
}
