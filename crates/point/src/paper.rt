// The paper's limits on numbers, and its refusals.
ghost use Rattle.std.specs.Prelude.{◌≡◌};
ghost use Rattle.point.specs.Paper.{number};

// Each coefficient is at most this in size.
pub const COEFFICIENT_LIMIT: u32 = 40;

// Each number of a base or target point is at most this in size.
pub const POINT_LIMIT: u32 = 160_000_000;

// Each number of a direction handed in is at most this in size.
pub const DIRECTION_LIMIT: u32 = 10_000;

// The refusals, in the order of the paper's table and with its numbers.
#[derive(Clone, Copy, PartialEq, Eq)]
pub enum Refusal {
    Range = 1,
    Degenerate = 2,
    Base = 5,
    BaseOff,
    Direction,
    Target,
    TargetOff,
    Row,
    Buffer,
    Layout,
    Body,
    Room,
    List,
    Number,
}

impl Refusal {
    // The paper's number of a refusal.
    pub fn number(self) -> u64
        ensures { result ≡ number self }
    {
        self as u64
    }
}
