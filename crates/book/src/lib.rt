// The curve book: a stored set of conics with their answers.
#![tactic(auto)]

use solve::Answer;

pub mod bytes;
pub mod kind;
pub mod layout;

// An answer as a book has it; none where the conic is degenerate.
pub type Stored = Option<Answer>;
