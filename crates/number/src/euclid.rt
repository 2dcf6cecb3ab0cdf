// The greatest common divisor by Euclid's remainders.
ghost use Rattle.std.specs.Prelude.{◌≡◌};
ghost use Rattle.number.specs.Gcd.{gcd_of};

// Two calls more than halve the second number, so at most 2·log₂(b) + 3 calls, with a division each; 93 for any two
// numbers.
pub fn gcd(a: u64, b: u64) -> u64
    ensures { result ≡ gcd_of a b }
{
    if b == 0 { a } else { gcd(b, a % b) }
}
