// The primes at which Legendre's condition fails.
ghost use Rattle.std.specs.Prelude.{◌≡◌, not, suc};
ghost use Rattle.number.specs.Residue.{is_square_modulo};
ghost use Rattle.number.specs.Root.{PrimeModulus};
ghost use Rattle.legendre.specs.Outcome.{fails_at, prime_limit};
ghost use Rattle.legendre.specs.Search.{least_below, fails, failing_of};
ghost use Rattle.legendre.specs.Reach.{Part, Triable};

use crate::equation::Equation;
use number::residue::least_root;
use whole::magnitude;

// One root modulo the prime, a number and a clause as `least_root` asks for it.
fn no_root(prime: u64, number: i64) -> bool
    requires { PrimeModulus prime }
    ensures { result ≡ not (is_square_modulo prime number) }
{
    least_root(prime, number).is_none()
}

// Trial division by 2 and the odd numbers up to the root of what is left of the size: at most √size / 2 + log₂ size
// + 1 turns, with at most two divisions each, and a root modulo each prime that divides.
fn failing(size: u64, number: i64) -> Option<u64>
    requires { Triable size }
    ensures { result ≡ least_below (fails size number) (suc size) }
{
    let mut rest = size;
    let mut divisor = 2;
    while divisor * divisor <= rest {
        if rest % divisor == 0 {
            if no_root(divisor, number) {
                return Some(divisor);
            }
            rest /= divisor;
        } else {
            divisor += 1 + divisor % 2;
        }
    }
    if rest == 1 {
        return None;
    }
    no_root(rest, number).then_some(rest)
}

// One product and one negation, and what `failing` costs at the size of a.
fn failing_of(a: i64, b: i64, c: i64) -> Option<u64>
    requires { Part a b c }
    ensures { result ≡ failing_of a b c }
{
    failing(magnitude(a), -(b * c))
}

impl Equation {
    // What `failing` costs at the three sizes.
    pub fn least_failing(self) -> Option<u64>
        ensures { result ≡ least_below (fails_at self.p self.g self.q) (prime_limit self.p self.g self.q) }
    {
        let of_p = failing_of(self.p, self.g, self.q);
        let of_g = failing_of(self.g, self.p, self.q);
        let of_q = failing_of(self.q, self.p, self.g);
        [of_p, of_g, of_q].into_iter().flatten().min()
    }
}
