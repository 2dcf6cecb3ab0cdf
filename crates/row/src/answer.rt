// The answer to a text row, and its row text: what is written costs one step for each byte.
ghost use Rattle.std.specs.Prelude.{◌≡◌};
ghost use Rattle.point.specs.Paper.{point};
ghost use Rattle.solve.specs.Answer.{solved};
ghost use Rattle.row_reader.specs.Reading.{read_row};
ghost use Rattle.row.specs.Row.{verdict_on};
ghost use Rattle.row.specs.Writing.{row_text};
ghost use Rattle.row.specs.Buffer.{HasRoom, Wrote};

use crate::text::RowText;
use point::Point;
use point::paper::Refusal;
use solve::{Answer, Reason};

// What solve answers to the conic of a text row, or refusal 10: one step for each byte of the text, and what solving
// costs.
pub fn verdict(text: &[u8]) -> Result<Answer, Refusal>
    ensures { solved result ≡ verdict_on (read_row text.now) }
{
    solve::solve(row_reader::read(text).ok_or(Refusal::Row)?)
}

// "P x y z". Room is asked for, as in RowText.
fn coordinates(row: &mut RowText, p: Point)
    requires { HasRoom (row_text (point p)) row.old }
    ensures { Wrote (row_text (point p)) row.old row.new }
{
    row.byte(b'P');
    row.spaced(p.x);
    row.spaced(p.y);
    row.spaced(p.z);
    row.byte(b'\n');
}

// The row of what solve gives. Taken apart by if-let and let-else: docs/RULES.md, "Forms in the code".
#[tactic(auto, using(crate::proofs::Decimal::numbers), unfolding(crate::specs::Writing::row_text))]
pub fn written(given: Result<Answer, Refusal>, row: &mut RowText)
    requires { HasRoom (row_text (solved given)) row.old }
    ensures { Wrote (row_text (solved given)) row.old row.new }
{
    if let Err(refusal) = given {
        return row.numbered(b"R ", refusal.number());
    }
    if let Ok(Err(Reason::Prime(l))) = given {
        return row.numbered(b"N prime ", l);
    }
    let Ok(Ok(p)) = given else {
        return row.words(b"N sign\n");
    };
    coordinates(row, p)
}
