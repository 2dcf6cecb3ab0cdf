// Input of any length, cut into rows at line feeds and answered row by row.
#![tactic(auto)]

ghost use Rattle.std.specs.Prelude.{◌≡◌};
ghost use Rattle.row.specs.Row.{RowPromise};
ghost use Rattle.rows.specs.Cutter.{new_cutter, keep, held_text, FeedPromise, FinishPromise};

use point::paper::Refusal;
use row::BUFFER_LIMIT;

// How much of a row is held: a right row has at most 47 bytes, so the first 48 of a longer one tell it from a right
// one.
const HOLDING: usize = 48;

const LINE_FEED: u8 = b'\n';

// A row in the making: its first bytes, and how many of them there are. It has no invariant, since `FeedPromise` and
// `FinishPromise` give every cutter a meaning, also one that counts more than it holds.
#[derive(Clone, Copy)]
pub struct Cutter {
    pub held: [u8; HOLDING],
    pub length: usize,
}

// What feeding a piece came to: the cutter after it, how much of the piece was taken, and how much was written.
#[derive(Clone, Copy)]
pub struct Fed {
    pub cutter: Cutter,
    pub taken: usize,
    pub written: usize,
}

impl Cutter {
    // Before the first byte of an input.
    pub fn new() -> Cutter
        ensures { result ≡ new_cutter }
    {
        Cutter {
            held: [0; HOLDING],
            length: 0,
        }
    }

    // One byte more of the row.
    #[tactic(auto, unfolding(crate::specs::Cutter::keep))]
    fn keep(&mut self, b: u8)
        ensures { self.new ≡ keep self.old b }
    {
        if self.length < HOLDING {
            self.held[self.length] = b;
            self.length += 1;
        }
    }

    // The row that answers what is held.
    fn answer(&self, out: &mut [u8]) -> Result<usize, Refusal>
        ensures { RowPromise (held_text self.now) out.old result out.new }
    {
        row::row(&self.held[..self.length.min(HOLDING)], out)
    }
}

// The answers to the rows that end in a piece, as far as the buffer has room for whole rows: one step for each byte of
// the piece, and what a row costs for each line feed.
pub fn feed(mut cutter: Cutter, piece: &[u8], out: &mut [u8]) -> Fed
    ensures { FeedPromise cutter piece.now out.old result out.new }
{
    let mut written = 0;
    for (taken, &b) in piece.iter().enumerate() {
        if b == LINE_FEED {
            let Ok(n) = cutter.answer(&mut out[written..]) else {
                return Fed {
                    cutter,
                    taken,
                    written,
                };
            };
            written += n;
            cutter.length = 0;
        } else {
            cutter.keep(b);
        }
    }
    Fed {
        cutter,
        taken: piece.len(),
        written,
    }
}

// The answer to a last row without a line feed, nothing if it is empty: what a row costs.
pub fn finish(cutter: Cutter, out: &mut [u8]) -> Result<usize, Refusal>
    ensures { FinishPromise cutter out.old result out.new }
{
    if out.len() < BUFFER_LIMIT {
        return Err(Refusal::Buffer);
    }
    if cutter.length == 0 {
        return Ok(0);
    }
    cutter.answer(out)
}
