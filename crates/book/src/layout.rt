// The layout of a book: its limits, the lengths of its bodies, and what stands in one.
ghost use Rattle.std.specs.Prelude.{◌≡◌, ◌+◌, ◌≤◌, length};
ghost use Rattle.book.specs.Layout.{body_length, conic_at, point_at};

use crate::bytes;
use conic::conic::Conic;
use point::Point;
use std::array;

// A book has at most so many conics.
pub const COUNT_LIMIT: usize = 2_000;

// The lengths of the bodies of kinds 1 to 4; no body has kind 0. One table: docs/RULES.md, "Forms in the code".
const BODY_LENGTHS: [usize; 5] = [0, 18, 6, 10, 6];

// The most bytes that a conic takes: its entry and the longest body.
pub const MOST_FOR_A_CONIC: usize = 21;

// One read of the table. By number, 0 included, as docs/PROMISES.md has it; a Kind's is Kind::body_length.
pub fn body_length(kind: usize) -> usize
    requires { kind ≤ 4 }
    ensures { result ≡ body_length kind }
{
    BODY_LENGTHS[kind]
}

// Six reads. No From of six numbers, as in row_reader::read; a book and a place, as in bytes.
pub fn conic_at(book: &[u8], at: usize) -> Conic
    requires { at + 6 ≤ length book.now }
    ensures { result ≡ conic_at book.now at }
{
    let [a, b, c, d, e, f]: [i64; 6] = array::from_fn(|i| bytes::signed_at::<1>(book, at + i));
    Conic { a, b, c, d, e, f }
}

// Twelve reads.
pub fn point_at(book: &[u8], at: usize) -> Point
    requires { at + 12 ≤ length book.now }
    ensures { result ≡ point_at book.now at }
{
    let [x, y, z]: [i64; 3] = array::from_fn(|i| bytes::signed_at::<4>(book, at + 4 * i));
    Point { x, y, z }
}
