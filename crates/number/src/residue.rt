// Square roots modulo a prime.
ghost use Rattle.std.specs.Prelude.{true, ◌≡◌, ◌*◌, ◌^◌, ◌≤◌, ◌<◌, pos};
ghost use Rattle.number.specs.Remainder.{remainder_of};
ghost use Rattle.number.specs.Prime.{is_prime};
ghost use Rattle.number.specs.Root.{least_root, IsRemainder, PrimeModulus};

// A modulus whose residues' products fit 64 bits.
#[derive(Clone, Copy)]
struct Modulus {
    n: u64,
    ghost large: { 1 < n },
    ghost small: { n < 2 ^ 32 },
}

impl Modulus {
    // One division.
    fn remainder(self, number: i64) -> u64
        ensures { result ≡ remainder_of self.n number }
    {
        number.rem_euclid(self.n as i64) as u64
    }

    // One multiplication and one division. Residues by number, each below the modulus by a clause: a type for one
    // would carry its modulus into every product twice.
    fn product(self, a: u64, b: u64) -> u64
        requires { (a < self.n) × (b < self.n) }
        ensures { IsRemainder self.n (a * b) result }
    {
        a * b % self.n
    }

    // Repeated squaring: at most two products for each binary digit of the exponent.
    fn power(self, base: u64, exponent: u64) -> u64
        requires { base < self.n }
        ensures { IsRemainder self.n (base ^ exponent) result }
    {
        let mut result = 1;
        let mut square = base;
        let mut left = exponent;
        while left > 0 {
            if left % 2 == 1 {
                result = self.product(result, square);
            }
            square = self.product(square, square);
            left /= 2;
        }
        result
    }

    // For a prime the least number from 2 up that is no square, by its power to (n - 1) / 2: two powers on average.
    fn non_residue(self) -> u64
        ensures { result < self.n }
    {
        for number in 2..self.n {
            if self.power(number, (self.n - 1) / 2) != 1 {
                return number;
            }
        }
        // 1 where there is none: what comes of it is only tried, so an Option would say no more and its None would
        // need an answer too.
        1
    }
}

// The number without its factors 2: one shift.
fn odd_part(number: u64) -> u64
    requires { 0 < number }
    ensures { (0 < result) × (result ≤ number) }
{
    number >> number.trailing_zeros()
}

// A residue other than 0 and 1 modulo a prime.
#[derive(Clone, Copy)]
struct Residue {
    modulus: Modulus,
    value: u64,
    ghost prime_tested: { is_prime modulus.n ≡ true },
    ghost at_least_two: { 2 ≤ value },
    ghost below: { value < modulus.n },
}

impl Residue {
    // What Tonelli and Shanks give for a root; nothing is said of it but that it is a residue. With 2^e the power of 2
    // in prime - 1 it takes about e + 4 powers.
    fn tonelli_shanks(self) -> u64
        ensures { result < self.modulus.n }
    {
        let Residue { modulus, value } = self;
        let prime = modulus.n;
        let odd = odd_part(prime - 1);
        let mut root = modulus.power(value, (odd + 1) / 2);
        let mut excess = modulus.power(value, odd);
        let mut factor = modulus.power(modulus.non_residue(), odd);
        let mut half = (prime - 1) / odd / 2;
        while half > 1 {
            half /= 2;
            let square = modulus.product(factor, factor);
            if modulus.power(excess, half) != 1 {
                root = modulus.product(root, factor);
                excess = modulus.product(excess, square);
            }
            factor = square;
        }
        root
    }

    // A number that should be a root; whether it is one is the caller's to test. One power, or what Tonelli and Shanks
    // take.
    fn candidate(self) -> u64
        ensures { result < self.modulus.n }
    {
        let Residue { modulus, value } = self;
        if modulus.n % 4 == 3 {
            modulus.power(value, (modulus.n + 1) / 4)
        } else {
            self.tonelli_shanks()
        }
    }

    // The least root by trying every number up to half the prime, each square from the one before: at most
    // (prime + 1) / 2 steps.
    fn scan(self) -> Option<u64>
        ensures { result ≡ least_root self.modulus.n (pos self.value) }
    {
        let Residue { modulus, value } = self;
        let prime = modulus.n;
        let mut square = 0;
        for root in 0..(prime + 1) / 2 {
            if square == value {
                return Some(root);
            }
            square = square + 2 * root + 1;
            if square >= prime {
                square -= prime;
            }
        }
        None
    }

    // A power to (prime - 1) / 2 other than 1 refutes a root, and a candidate that squares to the residue is a root;
    // if it did not, every number would be tried. One power, and the candidate's if there is a root.
    fn by_powers(self) -> Option<u64>
        ensures { result ≡ least_root self.modulus.n (pos self.value) }
    {
        let Residue { modulus, value } = self;
        let prime = modulus.n;
        if modulus.power(value, (prime - 1) / 2) != 1 {
            return None;
        }
        let root = self.candidate();
        if modulus.product(root, root) != value {
            return self.scan();
        }
        Some(root.min(prime - root))
    }
}

// The least root from 0 up of a number modulo a prime. Up to 512 trying is quicker, in at most 256 steps; above, it
// takes from one to some e + 5 powers, of about 1.5 log2(prime) products each, with 2^e the power of 2 in prime - 1.
// The prime is a number and a clause, here and in the callers: docs/PROMISES.md has this function of two numbers.
pub fn least_root(prime: u64, number: i64) -> Option<u64>
    requires { PrimeModulus prime }
    ensures { result ≡ least_root prime number }
{
    let modulus = Modulus { n: prime };
    let value = modulus.remainder(number);
    if value < 2 {
        return Some(value);
    }
    let residue = Residue { modulus, value };
    if prime < 512 {
        return residue.scan();
    }
    residue.by_powers()
}
