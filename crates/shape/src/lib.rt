// The shape of a curve, checked against the rules: its counts and rooms, or handles in a slice.
#![tactic(auto)]

ghost use Rattle.std.specs.Prelude.{◌≡◌, true};
ghost use Rattle.refusal.specs.Refusals.{first_of, verdict};
ghost use Rattle.knots.specs.declared.Form.TheVariants.{Control};
ghost use Rattle.knots.specs.Rules.{knot_rules};
ghost use Rattle.knots.specs.Given.{given, given_list};
ghost use Rattle.shape.specs.Rules.{counted_knots, handle_rules};
ghost use Rattle.shape.specs.Spline.{in_spline};

use knots::Form;
use refusal::Refusal;

// The n control points of a curve and its n + 4 knots, in the rooms that a record has for them.
// Stays: a record is judged by its counts before they are known to fit its rooms, so that no slices can be lent in their place.
#[derive(Clone, Copy)]
pub struct Spline<'a> {
    pub n: usize,
    pub xs: &'a [f64; 66],
    pub ys: &'a [f64; 66],
    pub knots: &'a [f64; 70],
}

// The knot rules for a count of knots; one that there is no room for is wrong, as an empty list is.
fn check_knots(n: usize, u: &[f64], k: usize) -> Result<(), Refusal>
    ensures { verdict result ≡ first_of (knot_rules Control n true (counted_knots k u.now)) }
{
    let counted = u.get(..k).unwrap_or(&[]);
    knots::check(Form::Control, n, Some(counted))
}

// Why a curve that counts k knots is refused by the rules 2 to 11, if it is.
pub fn check(k: usize, spline: Spline) -> Result<(), Refusal>
    ensures { verdict result ≡ first_of (in_spline k spline.entry).rules }
{
    let Spline { n, xs, ys, knots } = spline;
    check_knots(n, knots, k)?;
    if outcome::first_wild(xs, n) < n {
        return Err(Refusal::WildCoordinate);
    }
    if outcome::first_wild(ys, n) < n {
        return Err(Refusal::WildCoordinate);
    }
    Ok(())
}

// Why handles x, y in turn are refused by the rules 1 to 11, if they are.
pub fn check_handles(form: Form, coords: &[f64], knots: Option<&[f64]>) -> Result<(), Refusal>
    ensures { verdict result
        ≡ first_of (handle_rules form coords.now (given knots.entry) (given_list (λ k. k.now) knots.entry)) }
{
    if coords.len() % 2 != 0 {
        return Err(Refusal::OddCoordinates);
    }
    knots::check(form, coords.len() / 2, knots)?;
    if outcome::first_wild(coords, coords.len()) < coords.len() {
        return Err(Refusal::WildCoordinate);
    }
    Ok(())
}
