// A solution of the levelled equation.
#[derive(Clone, Copy)]
pub struct Triple {
    pub x: u64,
    pub y: u64,
    pub w: u64,
}

// Why there is none: by sign, or by the least prime at which Legendre's condition fails.
#[derive(Clone, Copy, PartialEq, Eq)]
pub enum Reason {
    Sign,
    Prime(u64),
}
