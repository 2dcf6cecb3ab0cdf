// The split of a whole number into a squarefree number, with its sign, and a square.
ghost use Rattle.std.specs.Prelude.{◌≡◌, pos};
ghost use Rattle.number.specs.Squarefree.{square_part};
ghost use Rattle.number.specs.Split.{split_of};

use crate::roots;

// A number as free · square², with free squarefree and of the number's sign; both are 0 for 0.
#[derive(Clone, Copy)]
pub struct Parts {
    pub free: i64,
    pub square: u64,
}

// The root of the greatest square that divides n. Divisors go up to the cube root of what is left of n, which then has
// at most two prime factors, so that it is a square or squarefree. At most ∛n + log₂ n turns, with at most five
// divisions each, and two roots.
fn square_part(n: u64) -> u64
    ensures { result ≡ square_part (pos n) }
{
    let mut rest = n;
    let mut square: u64 = 1;
    let mut divisor: u64 = 2;
    while divisor * divisor <= rest / divisor {
        let quotient = rest / divisor;
        if rest % divisor != 0 {
            divisor += 1;
        } else if quotient % divisor != 0 {
            rest = quotient;
        } else {
            rest = quotient / divisor;
            square *= divisor;
        }
    }
    if roots::is_square(rest) {
        square * roots::root(rest)
    } else {
        square
    }
}

// One square part and one division.
pub fn split(n: i64) -> Parts
    ensures { result ≡ split_of n }
{
    if n == 0 {
        return Parts { free: 0, square: 0 };
    }
    let square = square_part(whole::magnitude(n));
    let free = n / ((square * square) as i64);
    Parts { free, square }
}
