// Curves from control points.
#![tactic(auto)]

ghost use Rattle.std.specs.Prelude.{◌≡◌};
ghost use Rattle.knots.specs.Given.{given, given_list};
ghost use Rattle.curve.specs.Build.{build_of, building, control_curve};
ghost use Rattle.control.specs.Rules.{control_rules};

use curve::Curve;
use knots::Form;
use refusal::Refusal;

// The curve of control points x, y in turn, over the knots if any are given, else over uniform ones. `short` tells whether a slice that the
// caller has for the answer is short, which is 14.
// Corresponds to spline.rs: BSpline::from_control_points.
pub fn build_control(coords: &[f64], knots: Option<&[f64]>, short: bool) -> Result<Curve, Refusal>
    ensures { build_of result
        ≡ building (control_rules coords.now (given knots.entry) (given_list (λ k. k.now) knots.entry) short)
        (control_curve coords.now (given knots.entry) (given_list (λ k. k.now) knots.entry)) }
{
    shape::check_handles(Form::Control, coords, knots)?;
    if short {
        return Err(Refusal::ShortSlice);
    }
    let rooms = rooms::in_rooms(coords, knots);
    let wild = outcome::first_wild(&rooms.knots, 70) < 70;
    Curve::measured(rooms, !wild)
}
