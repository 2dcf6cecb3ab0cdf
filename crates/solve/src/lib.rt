// Solving a conic: a point exactly if there is one, or none with its reason.
#![tactic(auto)]

ghost use Rattle.std.specs.Prelude.{◌≡◌, IfOk, IfErr};
ghost use Rattle.point.specs.Paper.{number};
ghost use Rattle.conic.specs.Base.{legal, refused, conic_judged};
ghost use Rattle.conic.specs.Sizes.{InLimit};
ghost use Rattle.solve.specs.Demand2.{NonDegenerate, SquareDiscriminant};
ghost use Rattle.solve.specs.Answer.{answered};
ghost use Rattle.solve.specs.Solve.{solve_levelled, solve_non_degenerate, SolvePromise};

use crate::level::Level;
use conic::base::judge_conic;
use conic::conic::Conic;
use legendre::decide::outcome;
pub use legendre::outcome::Reason;
use point::Point;
use point::paper::Refusal;

mod level;
mod trial;

// A point, or why there is none; a none has no coordinates.
pub type Answer = Result<Point, Reason>;

// A conic in range that is not degenerate.
#[derive(Clone, Copy)]
struct Curve {
    h: Conic,
    ghost in_limit: { InLimit h },
    ghost non_degenerate: { NonDegenerate h },
}

impl Curve {
    // What judging costs.
    fn judged(h: Conic) -> Result<Curve, Refusal>
        ensures ok { IfOk result (λ curve. (curve.h ≡ h) × (legal ≡ conic_judged h)) }
        ensures err { IfErr result (λ r. refused (number r) ≡ conic_judged h) }
    {
        judge_conic(h)?;
        Ok(Curve { h })
    }

    // The levelling, the answer to the levelled equation, and for a point the way back.
    fn answer_by_level(self) -> Answer
        requires { ¬ SquareDiscriminant self.h }
        ensures { answered result ≡ solve_levelled self.h }
    {
        let v = Level::of(self);
        let solution = outcome(v.p, v.g, v.q)?;
        Ok(v.carried_back(self, solution))
    }

    // One square test, and one of the two ways.
    #[tactic(auto, using(crate::proofs::Entries::solve_by_level, crate::proofs::Entries::solve_square))]
    fn answer(self) -> Answer
        ensures { answered result ≡ solve_non_degenerate self.h }
    {
        if self.has_square_discriminant() {
            Ok(self.from_infinity())
        } else {
            self.answer_by_level()
        }
    }
}

// Any six numbers: at most what levelling and the answer to the levelled equation cost.
pub fn solve(h: Conic) -> Result<Answer, Refusal>
    ensures { SolvePromise h result }
{
    Ok(Curve::judged(h)?.answer())
}
