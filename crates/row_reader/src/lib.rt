// Reading a text row: a constant number of steps for each byte, and no part after one that is no number.
#![tactic(auto)]

ghost use Rattle.std.specs.Prelude.{◌≡◌};
ghost use Rattle.row_reader.specs.Reading.{read_digits, read_number, read_row};

use conic::conic::Conic;

// A number has at most this many digits.
const DIGIT_LIMIT: usize = 6;

// One to six digits: one step for each.
fn value(text: &[u8]) -> Option<u32>
    ensures { result ≡ read_digits text.now }
{
    if text.is_empty() || DIGIT_LIMIT < text.len() {
        return None;
    }
    let mut value = 0;
    for b in text {
        value = value * 10 + char::from(*b).to_digit(10)?;
    }
    Some(value)
}

// An optional "-" and one to six digits.
fn number(part: &[u8]) -> Option<i64>
    ensures { result ≡ read_number part.now }
{
    match part.strip_prefix(b"-") {
        Some(rest) => value(rest).map(|n| -i64::from(n)),
        None => value(part).map(i64::from),
    }
}

// The six numbers of a text row.
pub fn read(text: &[u8]) -> Option<Conic>
    ensures { result ≡ read_row text.now }
{
    // So that a blank line costs one test.
    if text.is_empty() {
        return None;
    }
    let mut parts = text.split(|b| *b == b' ');
    let mut numbers = [0; 6];
    for n in &mut numbers {
        *n = number(parts.next()?)?;
    }
    if parts.next().is_some() {
        return None;
    }
    let [a, b, c, d, e, f] = numbers;
    // No From of six numbers: the impl would be this line again, with a law and two edits.
    Some(Conic { a, b, c, d, e, f })
}
