// Integer roots and the test for squares.
ghost use Rattle.std.specs.Prelude.{◌≡◌};
ghost use Rattle.number.specs.Square.{root_of, is_square};

// Newton's steps down to the root, from a power of two at most twice the root of n: a step from 1 + e times that root
// goes to less than 1 + e²/2 times it, so at most 6 steps, with a division each.
// By hand: the edits root_guess_below, root_step_too_far and root_stops_late are of these steps, and the library's
// `isqrt` halves an interval of 2^32, which takes 32 for every n.
pub fn root(n: u64) -> u64
    ensures { result ≡ root_of n }
{
    if n == 0 {
        return 0;
    }
    let mut guess = 1u64 << ((65 - n.leading_zeros()) / 2);
    while n / guess < guess {
        guess = (guess + n / guess) / 2;
    }
    guess
}

// Bit k is 1 where a square can leave k modulo 64: 12 of the 64.
const SQUARES_MODULO_64: u64 = 0x0202021202030213;

// A shift refuses four of five numbers; a root and a product test the others.
pub fn is_square(n: u64) -> bool
    ensures { result ≡ is_square n }
{
    if (SQUARES_MODULO_64 >> (n % 64)) % 2 == 0 {
        return false;
    }
    let r = root(n);
    r * r == n
}
