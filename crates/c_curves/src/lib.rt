// How curves and numbers cross between C and the library.
#![tactic(auto)]

ghost use Rattle.std.specs.Prelude.{◌≡◌, cond, [], min, length};
ghost use Rattle.knots.specs.Given.{given, given_list};
ghost use Rattle.buffer.specs.Pasted.{pasted};
ghost use Rattle.refusal.specs.Refusals.{verdict};
ghost use Rattle.outcome.specs.Told.{told};
ghost use Rattle.measure.specs.Measure.{interval};
ghost use Rattle.samples.specs.Samples.{count_in};
ghost use Rattle.c_curves.specs.Curves.{is_given, form_of, read_curve, behind, handed};

use curve::Curve;
use knots::Form;
use measure::Interval;
use refusal::Refusal;

// What the handles are: fit points where the flag is not 0.
// Stays: the flag is C's.
pub fn form_of(fit: u64) -> Form
    ensures { result ≡ form_of fit }
{
    if fit != 0 {
        return Form::Fit;
    }
    Form::Control
}

// The knots, if the flag says that they are given.
pub fn given_knots(flag: u64, knots: &[f64]) -> Option<&[f64]>
    ensures flag { given result ≡ is_given flag }
    ensures list { given_list (λ k. k.now) result ≡ cond (is_given flag) knots.now [] }
{
    (flag != 0).then_some(knots)
}

// Puts the numbers of s into room, as many as it takes.
fn fill(s: &[f64], room: &mut [f64])
    ensures { room.new ≡ pasted s.now (min (length s.now) (length room.old)) room.old 0 }
{
    if s.len() <= room.len() {
        buffer::put(s, s.len(), room, 0);
        return;
    }
    buffer::put(s, room.len(), room, 0);
}

// The record with these counts and numbers, sound or not.
pub fn read_curve(
    points: u64,
    knot_count: u64,
    length: f64,
    xs: &[f64],
    ys: &[f64],
    knots: &[f64],
) -> Curve
    ensures { result ≡ read_curve points knot_count length xs.now ys.now knots.now }
{
    let mut x = [0.0; 66];
    fill(xs, &mut x);
    let mut y = [0.0; 66];
    fill(ys, &mut y);
    let mut u = [0.0; 70];
    fill(knots, &mut u);
    Curve {
        points: points as usize,
        knot_count: knot_count as usize,
        length,
        xs: x,
        ys: y,
        knots: u,
    }
}

// Hands a number on through a pointer.
pub fn hand_number(found: Result<f64, Refusal>, out: &mut f64) -> Result<(), Refusal>
    ensures { behind (verdict result) out.new ≡ handed (told found) 0 out.old }
{
    *out = found?;
    Ok(())
}

// Hands a count on through a pointer.
pub fn hand_count(found: Result<usize, Refusal>, out: &mut u64) -> Result<(), Refusal>
    ensures same { verdict result ≡ verdict found }
    ensures count { out.new ≡ count_in found out.old }
{
    *out = found? as u64;
    Ok(())
}

// Hands the two ends of an interval on through two pointers.
pub fn hand_interval(
    found: Result<Interval, Refusal>,
    from: &mut f64,
    to: &mut f64,
) -> Result<(), Refusal>
    ensures from_after { behind (verdict result) from.new ≡ handed (interval found) 0 from.old }
    ensures to_after { behind (verdict result) to.new ≡ handed (interval found) 1 to.old }
{
    let domain = found?;
    *from = domain.from;
    *to = domain.to;
    Ok(())
}
