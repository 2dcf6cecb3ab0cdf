// A row of digits in, a row of text out.
#![tactic(auto)]

ghost use Rattle.row.specs.Row.{RowPromise};

use crate::text::RowText;
use point::paper::Refusal;

mod answer;
mod text;

// The bytes that a buffer for an output row must have.
pub const BUFFER_LIMIT: usize = 40;

// The row that answers a text row, and its length with its line feed: one step for each byte of the text and of the
// row, and what solving costs.
pub fn row(text: &[u8], out: &mut [u8]) -> Result<usize, Refusal>
    ensures { RowPromise text.now out.old result out.new }
{
    if out.len() < BUFFER_LIMIT {
        return Err(Refusal::Buffer);
    }
    let mut row = RowText::new(out);
    answer::written(answer::verdict(text), &mut row);
    Ok(row.length())
}
