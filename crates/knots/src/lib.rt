// The knot rules.
#![tactic(auto)]

ghost use Rattle.std.specs.Prelude.{◌≡◌, true, false, not, [], ◌+◌, ◌≤◌, length};
ghost use Rattle.std.specs.List.{list_all};
ghost use Rattle.std.specs.Float.Ieee.{eq};
ghost use Rattle.refusal.specs.Refusals.{first_of, verdict};
ghost use Rattle.meaning.specs.Search.{some};
ghost use Rattle.knots.specs.Rules.{some_unfit, knot_rules};
ghost use Rattle.knots.specs.Repeat.{repeats};
ghost use Rattle.knots.specs.Given.{given, given_list};
ghost use Rattle.knots.specs.declared.Form.TheVariants.{Control};

use refusal::Refusal;

// What a spline's handles are: its control points, or points that it passes through.
#[derive(Clone, Copy, Debug, PartialEq, Eq)]
pub enum Form {
    Control,
    Fit,
}

// The rules on the number of handles alone: those of the table where no knots are given.
fn check_handles(form: Form, handles: usize) -> Result<(), Refusal>
    ensures { verdict result ≡ first_of (knot_rules form handles false []) }
{
    if handles < 2 {
        return Err(Refusal::FewHandles);
    }
    match form {
        Form::Control => {
            if handles < 4 {
                return Err(Refusal::FewControlPoints);
            }
            if handles > 66 {
                return Err(Refusal::ManyHandles);
            }
        }
        Form::Fit => {
            if handles > 64 {
                return Err(Refusal::ManyHandles);
            }
        }
    }
    Ok(())
}

// Whether each knot is finite and not less than the one before, in one pass with no way out but its end, so that a processor takes several knots at once.
fn all_fit(knots: &[f64]) -> bool
    requires { 1 ≤ length knots.now }
    ensures { result ≡ not (some_unfit knots.now) }
{
    let pairs = knots.iter().zip(&knots[1..]);
    pairs.fold(number::is_finite(knots[0]), |fit, (before, knot)| {
        fit & (number::is_finite(*knot) & !(*knot < *before))
    })
}

// Whether each knot is equal to this one.
fn all_equal(knots: &[f64], one: f64) -> bool
    ensures { result ≡ list_all (λ k. eq k one) knots.now }
{
    knots.iter().all(|knot| *knot == one)
}

// Whether no knot from 1 on, below n, equals the third knot after it, in one pass.
fn none_repeats(knots: &[f64], n: usize) -> bool
    requires fact_1 { 1 ≤ n }
    requires fact_2 { length knots.now ≡ n + 4 }
    ensures { result ≡ not (some 1 n (repeats knots.now)) }
{
    (1..n).fold(true, |apart, j| apart & (knots[j] != knots[j + 3]))
}

// The rules on the ends and on repeats, for n + 4 finite knots that do not fall.
fn check_ends(n: usize, knots: &[f64]) -> Result<(), Refusal>
    requires fact_1 { (4 ≤ n) × (n ≤ 66) }
    requires fact_2 { length knots.now ≡ n + 4 }
    requires fact_3 { some_unfit knots.now ≡ false }
    ensures { verdict result ≡ first_of (knot_rules Control n true knots.now) }
{
    let (first, last) = (knots[0], knots[n + 3]);
    if !all_equal(&knots[..4], first) {
        return Err(Refusal::NotClamped);
    }
    if !all_equal(&knots[n..], last) {
        return Err(Refusal::NotClamped);
    }
    if first >= last {
        return Err(Refusal::NoInterval);
    }
    if !none_repeats(knots, n) {
        return Err(Refusal::CrowdedKnot);
    }
    Ok(())
}

// The rules on a list of knots for n control points.
fn check_list(n: usize, knots: &[f64]) -> Result<(), Refusal>
    requires { (4 ≤ n) × (n ≤ 66) }
    ensures { verdict result ≡ first_of (knot_rules Control n true knots.now) }
{
    if knots.len() != n + 4 {
        return Err(Refusal::KnotCount);
    }
    if !all_fit(knots) {
        return Err(Refusal::UnfitKnot);
    }
    check_ends(n, knots)
}

// Why a spline of so many handles, over these knots where any are given, is refused by the rules 2 to 10.
// Corresponds to spline.rs: check.
pub fn check(form: Form, handles: usize, knots: Option<&[f64]>) -> Result<(), Refusal>
    ensures { verdict result ≡ first_of (knot_rules form handles (given knots.entry) (given_list (λ k. k.now) knots.entry)) }
{
    check_handles(form, handles)?;
    match (form, knots) {
        (_, None) => Ok(()),
        (Form::Control, Some(list)) => check_list(handles, list),
        (Form::Fit, Some(_)) => Err(Refusal::KnotsWithFitPoints),
    }
}
