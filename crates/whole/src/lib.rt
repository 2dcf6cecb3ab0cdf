#![tactic(auto)]

ghost use Rattle.std.specs.Prelude.{◌≡◌, nat_abs};

// The size of `x`, for every `x`: three steps. The library's unsigned_abs, by the name that docs/PROMISES.md has and
// with the promise that the proofs above cite.
pub fn magnitude(x: i64) -> u64
    ensures { result ≡ nat_abs x }
{
    x.unsigned_abs()
}
