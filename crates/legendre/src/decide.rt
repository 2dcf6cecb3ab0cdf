// The levelled equation's answer.
ghost use Rattle.std.specs.Prelude.{◌≡◌};
ghost use Rattle.legendre.specs.Outcome.{outcome_of};
ghost use Rattle.legendre.specs.Reach.{Reach};

use crate::equation::Equation;
use crate::outcome::{Reason, Triple};

// The cost of `least_failing`, and where no prime fails that of `chosen`.
pub fn outcome(p: i64, g: i64, q: i64) -> Result<Triple, Reason>
    requires { Reach p g q }
    ensures { result ≡ outcome_of p g q }
{
    let equation = Equation { p, g, q };
    if equation.one_sign() {
        return Err(Reason::Sign);
    }
    if let Some(prime) = equation.least_failing() {
        return Err(Reason::Prime(prime));
    }
    Ok(equation.chosen())
}
