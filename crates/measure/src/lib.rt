// What is measured of a whole curve: the length of its polygon, and its domain. A curve is checked again, whoever made it.
#![tactic(auto)]

ghost use Rattle.std.specs.Prelude.{◌≡◌};
ghost use Rattle.outcome.specs.Told.{told};
ghost use Rattle.measure.specs.Measure.{length_answer, stored_answer, interval, domain_answer};

use offer::Offer;
use refusal::Refusal;

// The domain of a curve: its first knot and its last.
#[derive(Clone, Copy)]
pub struct Interval {
    pub from: f64,
    pub to: f64,
}

// The length of the control polygon: of a record the one that is stored, which the check sums afresh.
// Corresponds to spline.rs: Curve::polygon_length.
pub fn length<C: Offer>(curve: &C) -> Result<f64, Refusal>
    ensures answer { told result ≡ length_answer (C.offered curve.now) }
    ensures stored { told result ≡ stored_answer (C.offered curve.now) (C.stored curve.now) }
{
    curve.check()?;
    let length = curve.length();
    if !number::is_finite(length) {
        return Err(Refusal::WildOutcome);
    }
    Ok(length)
}

// The first knot and the last: the control points do not matter.
// Corresponds to spline.rs: Curve::domain.
pub fn domain<C: Offer>(curve: &C) -> Result<Interval, Refusal>
    ensures { interval result ≡ domain_answer (C.offered curve.now) }
{
    curve.check()?;
    let knots = curve.knots();
    Ok(Interval {
        from: knots[0],
        to: knots[knots.len() - 1],
    })
}
