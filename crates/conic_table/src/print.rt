// What rows show, in the paper's words. Display is std's and the types are the libraries', so each impl stands on a
// wrapper.
use conic::conic::Conic;
use point::paper::Refusal;
use point::{Direction, Point};
use solve::Reason;
use std::fmt::{self, Display};

#[derive(Drop)]
pub struct Shown<T>(pub T);

impl Display for Shown<Conic> {
    fn fmt<W: fmt::Write>(&self, f: &mut fmt::Formatter<W>) -> fmt::Result {
        let h = self.0;
        write!(f, " {} {} {} {} {} {}", h.a, h.b, h.c, h.d, h.e, h.f)
    }
}

impl Display for Shown<Point> {
    fn fmt<W: fmt::Write>(&self, f: &mut fmt::Formatter<W>) -> fmt::Result {
        let Point { x, y, z } = self.0;
        write!(f, "P {x} {y} {z}")
    }
}

impl Display for Shown<Direction> {
    fn fmt<W: fmt::Write>(&self, f: &mut fmt::Formatter<W>) -> fmt::Result {
        let Direction { u, v } = self.0;
        write!(f, "D {u} {v}")
    }
}

impl Display for Shown<Reason> {
    fn fmt<W: fmt::Write>(&self, f: &mut fmt::Formatter<W>) -> fmt::Result {
        match self.0 {
            Reason::Sign => write!(f, "N sign"),
            Reason::Prime(prime) => write!(f, "N prime {prime}"),
        }
    }
}

impl Display for Shown<Refusal> {
    fn fmt<W: fmt::Write>(&self, f: &mut fmt::Formatter<W>) -> fmt::Result {
        write!(f, "R {}", self.0.number())
    }
}

impl<T: Copy, E: Copy> Display for Shown<Result<T, E>>
where
    Shown<T>: Display,
    Shown<E>: Display,
{
    fn fmt<W: fmt::Write>(&self, f: &mut fmt::Formatter<W>) -> fmt::Result {
        match self.0 {
            Ok(value) => Shown(value).fmt(f),
            Err(error) => Shown(error).fmt(f),
        }
    }
}
