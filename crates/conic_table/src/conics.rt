// Conics and the answers of solve.
use crate::print::Shown;
use conic::conic::Conic;
use std::fmt::{self, Display};
use std::{array, io};

// The six coefficients of a conic, with no From of six numbers, as in row_reader::read; shown with solve's answer.
#[derive(Drop)]
pub struct SolveRow([i64; 6]);

impl Display for SolveRow {
    fn fmt<W: fmt::Write>(&self, out: &mut fmt::Formatter<W>) -> fmt::Result {
        let [a, b, c, d, e, f] = self.0;
        let h = Conic { a, b, c, d, e, f };
        write!(out, "{}: {}", Shown(h), Shown(solve::solve(h)))
    }
}

pub const BENCH: [SolveRow; 12] = [
    SolveRow([1, 0, 1, 0, 0, -1]),
    SolveRow([40, 0, 40, 0, 0, -40]),
    SolveRow([1, 0, 1, 0, 0, -21]),
    SolveRow([1, 0, 1, 0, 0, 3]),
    SolveRow([2, 0, 3, 0, 0, -1]),
    SolveRow([1, 0, -2, 0, 0, -3]),
    SolveRow([1, 1, 1, 0, 0, -7]),
    SolveRow([1, 1, 1, 1, 0, -1]),
    SolveRow([1, 2, 1, 1, 2, -2]),
    SolveRow([0, 1, 0, 0, 0, -1]),
    SolveRow([1, 0, 0, 0, -1, 0]),
    SolveRow([1, 0, 1, 0, 0, 0]),
];

// Conics that an error near the truth would answer otherwise.
pub const NEAR: [SolveRow; 10] = [
    SolveRow([-13, 0, 1, 0, 0, -17]),
    SolveRow([-11, 0, 2, 0, 0, -13]),
    SolveRow([3, 0, 3, 0, 0, -1]),
    SolveRow([1, 0, -3, 0, 0, 1]),
    SolveRow([40, 39, 38, 37, 36, -40]),
    SolveRow([-40, -39, -38, -37, -36, 40]),
    SolveRow([40, 1, 40, 1, 40, -39]),
    SolveRow([0, 0, 1, 1, 0, 0]),
    SolveRow([1, 0, -1, 0, 0, 1]),
    SolveRow([1, 3, 2, 1, 1, 5]),
];

// Both refusals apply to the first row.
pub const REFUSED: [SolveRow; 5] = [
    SolveRow([41, 0, 0, 0, 0, 0]),
    SolveRow([0, 0, 0, 0, 0, 0]),
    SolveRow([0, 0, 0, 1, 2, 3]),
    SolveRow([1, 0, 1, 0, 0, 41]),
    SolveRow([1, 0, 1, 0, 0, -41]),
];

// The least number in each place.
pub const LEAST: [SolveRow; 6] = [
    SolveRow([i64::MIN, 0, 1, 0, 0, -1]),
    SolveRow([1, i64::MIN, 1, 0, 0, -1]),
    SolveRow([1, 0, i64::MIN, 0, 0, -1]),
    SolveRow([1, 0, 1, i64::MIN, 0, -1]),
    SolveRow([1, 0, 1, 0, i64::MIN, -1]),
    SolveRow([1, 0, 1, 0, 0, i64::MIN]),
];

// ax² + cy² = z², for c from 1 to 7
fn diagonal_row(rt: &impl Print, a: i64) -> io::Result<()> {
    for c in 1..8 {
        println!(rt; "{}", SolveRow([a, 0, c, 0, 0, -1]))?;
    }
    Ok(())
}

// ax² + cy² = z², for a and c from 1 to 7
pub fn diagonal_rows(rt: &impl Print) -> io::Result<()> {
    println!(rt; "diagonal conics")?;
    for a in 1..8 {
        diagonal_row(rt, a)?;
    }
    Ok(())
}

// The next number of a sequence that looks like chance.
fn next(seed: u64) -> u64 {
    (seed % 2147483648 * 1103515245 + 12345) % 2147483648
}

// A number from -limit to limit.
fn coefficient(seed: u64, limit: u32) -> i64 {
    (seed / 65536 % (2 * u64::from(limit) + 1)) as i64 - i64::from(limit)
}

// Rows of six numbers of the sequence each.
pub fn scattered_rows(rt: &impl Print, limit: u32) -> io::Result<()> {
    println!(rt; "scattered conics")?;
    let mut seed = 1;
    for _ in 0..40 {
        let row = array::from_fn(|_| {
            seed = next(seed);
            coefficient(seed, limit)
        });
        println!(rt; "{}", SolveRow(row))?;
    }
    Ok(())
}
