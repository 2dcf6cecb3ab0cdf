// Little-endian numbers in bytes, read and written. Each function takes a step for each byte.
// The place stands beside the book and each clause says that the bytes lie there: docs/PROMISES.md names these
// functions so.
ghost use Rattle.std.specs.Prelude.{◌≡◌, ◌+◌, ◌^◌, ◌≤◌, ◌<◌, nat_abs, length, drop};
ghost use Rattle.std.proofs.lemmas.List.Edits.{sets};
ghost use Rattle.std.proofs.Math.Seq.{paste};
ghost use Rattle.point.specs.Paper.{point_limit};
ghost use Rattle.book.specs.Bytes.{bytes, number_at, unsigned, signed, signed_below};

// The number of N bytes from a place on.
pub fn number_at<const N: usize>(book: &[u8], at: usize) -> u64
    requires { (at + N ≤ length book.now) × (N ≤ 8) }
    ensures { (result ≡ number_at N book.now at) × (result < 256 ^ N) }
{
    let mut number = 0;
    // By index: the edit count_big_endian turns it.
    for i in (0..N).rev() {
        number = 256 * number + u64::from(book[at + i]);
    }
    number
}

// A number below a range, the upper half of which stands for the negative ones.
// By a range and not by casts: one function then serves every width.
fn signed_below(range: u64, n: u64) -> i64
    requires { (n < range) × (range ≤ 4_294_967_296) }
    ensures { result ≡ signed_below range n }
{
    if 2 * n < range {
        n as i64
    } else {
        n as i64 - range as i64
    }
}

// The signed number of N bytes from a place on.
pub fn signed_at<const N: usize>(book: &[u8], at: usize) -> i64
    requires { (at + N ≤ length book.now) × (N ≤ 4) }
    ensures { result ≡ signed N (number_at N book.now at) }
{
    signed_below(256_u64.pow(N as u32), number_at::<N>(book, at))
}

// The N lowest bytes of a number.
pub fn put_number<const N: usize>(book: &mut [u8], at: usize, n: u64)
    requires { (at + N ≤ length book.old) × (N ≤ 8) }
    ensures { book.new ≡ sets book.old at (bytes N n) }
{
    book[at..at + N].copy_from_slice(&n.to_le_bytes()[..N]);
}

// A signed number in four bytes: the lowest of its 64 bits.
pub fn put_signed(book: &mut [u8], at: usize, n: i64)
    requires { (at + 4 ≤ length book.old) × (nat_abs n ≤ point_limit) }
    ensures { book.new ≡ sets book.old at (bytes 4 (unsigned 4 n)) }
{
    put_number::<4>(book, at, n.cast_unsigned());
}

// Copies count bytes: the library's copy_from_slice, by the name that docs/PROMISES.md has.
pub fn copy(from: &[u8], start: usize, count: usize, to: &mut [u8], at: usize)
    requires { (start + count ≤ length from.now) × (at + count ≤ length to.old) }
    ensures { to.new ≡ paste to.old at (drop start from.now) count }
{
    to[at..at + count].copy_from_slice(&from[start..start + count]);
}
