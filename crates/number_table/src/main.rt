// Prints small values of number theory's functions, to be checked by eye against their definitions.
#![tactic(auto)]

ghost use Rattle.number.specs.Root.{PrimeModulus};

use number::{euclid, residue, roots, splitting};
use std::io;

// gcd(a, 0), gcd(a, 1), .. gcd(a, 12)
fn gcd_row(rt: &impl Print, a: u64) -> io::Result<()> {
    for b in 0..13 {
        print!(rt; " {}", euclid::gcd(a, b))?;
    }
    println!(rt;)
}

// Four tables, not one over impl Fn: the rows of the last ask for primes, which a bound would have to carry.
fn gcd_table(rt: &impl Print) -> io::Result<()> {
    println!(rt; "greatest common divisor of 0 to 12 (down) and 0 to 12 (across)")?;
    for a in 0..13 {
        gcd_row(rt, a)?;
    }
    Ok(())
}

fn root_row(rt: &impl Print, n: u64) -> io::Result<()> {
    print!(rt; " {n}: {}", roots::root(n))?;
    if roots::is_square(n) {
        print!(rt; " square")?;
    }
    println!(rt;)
}

fn root_table(rt: &impl Print) -> io::Result<()> {
    println!(rt; "integer root")?;
    for n in (0..27).chain([
        18446744065119617024,
        18446744065119617025,
        18446744073709551615,
    ]) {
        root_row(rt, n)?;
    }
    Ok(())
}

fn split_row(rt: &impl Print, n: i64) -> io::Result<()> {
    let parts = splitting::split(n);
    println!(rt; " {n} = {} * {} ^2", parts.free, parts.square)
}

fn split_table(rt: &impl Print) -> io::Result<()> {
    println!(rt; "squarefree split")?;
    for n in (0..51).chain([-1, -12, -50, -20480000, -800000000, -9223372036854775808]) {
        split_row(rt, n)?;
    }
    Ok(())
}

// A prime by number and clause, here and below, as `least_root` asks for it.
fn root_modulo(rt: &impl Print, prime: u64, n: i64) -> io::Result<()>
    requires { PrimeModulus prime }
{
    if let Some(r) = residue::least_root(prime, n) {
        print!(rt; " {r}")
    } else {
        print!(rt; " -")
    }
}

// the least roots of 0, 1, .. 16
fn residue_row(rt: &impl Print, prime: u64) -> io::Result<()>
    requires { PrimeModulus prime }
{
    print!(rt; " {prime}:")?;
    for n in 0..17 {
        root_modulo(rt, prime, n)?;
    }
    println!(rt;)
}

fn residue_table(rt: &impl Print) -> io::Result<()> {
    println!(rt; "least root of 0 to 16 modulo a prime")?;
    for prime in [2, 3, 5, 7, 11, 13, 17, 10007, 10009] {
        residue_row(rt, prime)?;
    }
    Ok(())
}

fn main(rt: HostRuntime) -> io::Result<()> {
    gcd_table(&rt)?;
    root_table(&rt)?;
    split_table(&rt)?;
    residue_table(&rt)
}
