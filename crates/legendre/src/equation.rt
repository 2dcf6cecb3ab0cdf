// The levelled equation pX² + gY² + qW² = 0.
ghost use Rattle.legendre.specs.Reach.{Reach};

#[derive(Clone, Copy)]
pub struct Equation {
    pub p: i64,
    pub g: i64,
    pub q: i64,
    ghost reach: { Reach p g q },
}
