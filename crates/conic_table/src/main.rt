// Prints answers of solve and of the two direction steps, to be checked against their definitions: `P x y z` is a
// point, `N sign` and `N prime n` none, `D u v` a direction and `R n` a refusal.
#![tactic(auto)]

mod conics;
mod print;
mod steps;

use std::fmt::Display;
use std::io;

// A title and its rows. No bound `Shown<T>: Display`: tried, and it overflows at the impl for a Result.
fn rows<T: Display>(rt: &impl Print, title: &str, rows: &[T]) -> io::Result<()> {
    println!(rt; "{title}")?;
    for row in rows {
        println!(rt; "{row}")?;
    }
    Ok(())
}

fn main(rt: HostRuntime) -> io::Result<()> {
    rows(&rt, "bench examples", &conics::BENCH)?;
    rows(&rt, "near misses", &conics::NEAR)?;
    rows(&rt, "refusals", &conics::REFUSED)?;
    rows(&rt, "the least number in each place", &conics::LEAST)?;
    conics::diagonal_rows(&rt)?;
    conics::scattered_rows(&rt, 4)?;
    conics::scattered_rows(&rt, 40)?;
    rows(&rt, "direction to point", &steps::STEPS)?;
    rows(&rt, "point to direction", &steps::BACK)?;
    rows(&rt, "refusals of direction to point", &steps::REFUSED_STEPS)?;
    rows(&rt, "refusals of point to direction", &steps::REFUSED_BACK)?;
    steps::round_trips(&rt)
}
