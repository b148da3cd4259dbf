// The one build of every form: by value, or in slices.
#![tactic(auto)]

ghost use Rattle.std.specs.Prelude.{◌≡◌, ◌||◌, ◌*◌, ◌≤◌, length, take};
ghost use Rattle.refusal.specs.Refusals.{verdict};
ghost use Rattle.knots.specs.Given.{given, given_list};
ghost use Rattle.curve.specs.Build.{build_of};
ghost use Rattle.fit.specs.Fit.{making};
ghost use Rattle.build.specs.Build.{controls_in, lacks_work, built_by, built, in_turn, sliced, built_into};

use curve::Curve;
use knots::Form;
use refusal::Refusal;

// How many control points the curve of these handles has.
fn controls(form: Form, coords: &[f64]) -> usize
    ensures { result ≡ controls_in form coords.now }
{
    match form {
        Form::Control => coords.len() / 2,
        Form::Fit => coords.len() / 2 + 2,
    }
}

// The curve of these handles. `short` tells whether a slice that the caller has for the answer is short, which is 14.
fn build_with(
    form: Form,
    coords: &[f64],
    knots: Option<&[f64]>,
    short: bool,
    work: &mut [f64],
) -> Result<Curve, Refusal>
    ensures { making (build_of result) work.new
        ≡ built_by form coords.now (given knots.entry) (given_list (λ k. k.now) knots.entry)
        (lacks_work form coords.now work.old || short) work.old }
{
    match form {
        Form::Control => control::build_control(coords, knots, short),
        Form::Fit => fit::build_fit(coords, knots, short, work),
    }
}

// The curve of handles x, y in turn: with them as control points over the knots, if any are given, or through them. Fit points need work of m² + 2m
// doubles for m = n + 2 control points.
// Corresponds to spline.rs: BSpline::new.
pub fn build(
    form: Form,
    coords: &[f64],
    knots: Option<&[f64]>,
    work: &mut [f64],
) -> Result<Curve, Refusal>
    ensures { making (build_of result) work.new
        ≡ built form coords.now (given knots.entry) (given_list (λ k. k.now) knots.entry) work.old }
{
    build_with(form, coords, knots, false, work)
}

// ---- in slices

// Control points x, y in turn, at the front.
fn in_turn(xs: &[f64; 66], ys: &[f64; 66], n: usize) -> [f64; 132]
    requires { n ≤ 66 }
    ensures result_value { take (2 * n) result ≡ in_turn n xs.now ys.now }
    ensures n_in_bounds { 2 * n ≤ length result }
{
    let mut a = [0.0; 132];
    // Stays: each turn writes two numbers, at places that its index gives.
    for i in 0..n {
        a[2 * i] = xs[i];
        a[2 * i + 1] = ys[i];
    }
    a
}

// The same curve, with its control points in control and its knots in knots_out.
pub fn build_slices(
    form: Form,
    coords: &[f64],
    knots: Option<&[f64]>,
    work: &mut [f64],
    control: &mut [f64],
    knots_out: &mut [f64],
) -> Result<(), Refusal>
    ensures { sliced (verdict result) control.new knots_out.new work.new
        ≡ built_into form coords.now (given knots.entry) (given_list (λ k. k.now) knots.entry)
        work.old control.old knots_out.old }
{
    let m = controls(form, coords);
    let short = number::either(control.len() < 2 * m, knots_out.len() < m + 4);
    let curve = build_with(form, coords, knots, short, work)?;
    let points = in_turn(&curve.xs, &curve.ys, curve.points);
    buffer::put(&points, 2 * curve.points, control, 0);
    buffer::put(&curve.knots, curve.knot_count, knots_out, 0);
    Ok(())
}
