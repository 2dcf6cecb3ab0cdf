// What the entries ask of a conic and of a base on it, and the refusals of others.
ghost use Rattle.std.specs.Prelude.{◌≡◌};
ghost use Rattle.conic.specs.Base.{judged, conic_judged, judged_of};

use crate::conic::Conic;
use point::Point;
use point::paper::Refusal;

// Whether a conic is what every entry asks for: some thirty steps.
pub fn judge_conic(h: Conic) -> Result<(), Refusal>
    ensures { judged result ≡ conic_judged h }
{
    if !h.in_range() {
        return Err(Refusal::Range);
    }
    if h.determinant() == 0 {
        return Err(Refusal::Degenerate);
    }
    Ok(())
}

// Whether a conic and a base are what both direction entries ask for: some fifty steps and two greatest common
// divisors.
pub fn judge(h: Conic, base: Point) -> Result<(), Refusal>
    ensures { judged result ≡ judged_of h base }
{
    judge_conic(h)?;
    if !base.is_base() {
        return Err(Refusal::Base);
    }
    if h.at(base) == 0 {
        Ok(())
    } else {
        Err(Refusal::BaseOff)
    }
}
