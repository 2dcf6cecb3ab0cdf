// Rows of digits on standard input, one row of text for each on standard output.
#![tactic(auto)]

use rows::Cutter;
use std::io;
use std::io::{Read, Write};

// How many bytes are read and written at a time: room for more than one row.
const PIECE: usize = 65536;

// Answers a piece and writes the answers out, a buffer at a time.
fn answer(
    output: &mut impl Write,
    mut cutter: Cutter,
    mut piece: &[u8],
    out: &mut [u8; PIECE],
) -> io::Result<Cutter> {
    while !piece.is_empty() {
        let fed = rows::feed(cutter, piece, out);
        output.write_all(&out[..fed.written])?;
        cutter = fed.cutter;
        piece = &piece[fed.taken..];
    }
    Ok(cutter)
}

// Answers what is read, but for a last row without a line feed, which the cutter holds then. A read that fails ends
// the input. Nothing says that input ends, so the reads are counted up to a number that no run reaches.
fn read_all(
    input: &mut impl Read,
    output: &mut impl Write,
    out: &mut [u8; PIECE],
) -> io::Result<Cutter> {
    let mut cutter = Cutter::new();
    let mut piece = [0; PIECE];
    for _ in 0..u64::MAX {
        match input.read(&mut piece) {
            Ok(n) if n > 0 => cutter = answer(output, cutter, &piece[..n], out)?,
            _ => break,
        }
    }
    Ok(cutter)
}

// Answers the input, with the last row if it ends without a line feed.
fn answer_all(input: &mut impl Read, output: &mut impl Write) -> io::Result<()> {
    let mut out = [0; PIECE];
    let cutter = read_all(input, output, &mut out)?;
    if let Ok(n) = rows::finish(cutter, &mut out) {
        output.write_all(&out[..n])?;
    }
    Ok(())
}

// Output that cannot be written ends the run without a word: a row that cannot be written is nobody's to read.
fn main(rt: HostRuntime) {
    let _ = answer_all(&mut rt.stdin(), &mut rt.stdout());
}
