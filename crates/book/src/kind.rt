// The kinds of bodies, by the paper's numbers.
ghost use Rattle.std.specs.Prelude.{◌≡◌};
ghost use Rattle.book.specs.Kinds.{kind_number, Decodes};
ghost use Rattle.book.specs.Layout.{body_length};

use crate::layout;
use point::paper::Refusal;

#[derive(Clone, Copy)]
pub enum Kind {
    Point = 1,
    Sign,
    Prime,
    Degenerate,
}

// Refusal 12 where no kind has the number.
impl TryFrom<u8> for Kind {
    type Error = Refusal;

    ghost try_from_gives = { Decodes };

    fn try_from(number: u8) -> Result<Self, Refusal> {
        match number {
            1 => Ok(Kind::Point),
            2 => Ok(Kind::Sign),
            3 => Ok(Kind::Prime),
            4 => Ok(Kind::Degenerate),
            _ => Err(Refusal::Layout),
        }
    }
}

impl Kind {
    // How long the body is: one read of a table.
    pub fn body_length(self) -> usize
        ensures { result ≡ body_length (kind_number self) }
    {
        layout::body_length(self as usize)
    }
}
