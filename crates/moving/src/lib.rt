// One control point of a record moved. The record is checked again, whoever made it.
#![tactic(auto)]

ghost use Rattle.std.specs.Prelude.{◌≡◌, false, ◌<◌};
ghost use Rattle.refusal.specs.Refusals.{verdict};
ghost use Rattle.curve.specs.Build.{build_of};
ghost use Rattle.moving.specs.Moving.{moved, moved_by, moved_out, moved_into};

use curve::Curve;
use refusal::Refusal;

// The curve with the control point of this index at (x, y), measured anew.
fn with_point(c: &Curve, index: usize, x: f64, y: f64) -> Curve
    requires { index < 66 }
    ensures { result ≡ moved c.now index x y }
{
    let mut xs = c.xs;
    xs[index] = x;
    let mut ys = c.ys;
    ys[index] = y;
    let length = polygon::length(c.points, &xs, &ys);
    Curve {
        length,
        xs,
        ys,
        ..*c
    }
}

// The same by the rules of a move. `short` tells whether a slice that the caller has for the answer is
// short, which is 14.
fn move_with(c: &Curve, index: usize, x: f64, y: f64, short: bool) -> Result<Curve, Refusal>
    ensures { build_of result ≡ moved_by c.now index x y short }
{
    c.check_with(outcome::either_wild(x, y))?;
    if index >= c.points {
        return Err(Refusal::RecordMismatch);
    }
    if short {
        return Err(Refusal::ShortSlice);
    }
    let curve = with_point(c, index, x, y);
    if !number::is_finite(curve.length) {
        return Err(Refusal::WildOutcome);
    }
    Ok(curve)
}

// The curve with the control point of this index at (x, y): that point and the length change, and nothing else.
pub fn move_point(c: &Curve, index: usize, x: f64, y: f64) -> Result<Curve, Refusal>
    ensures { build_of result ≡ moved_by c.now index x y false }
{
    move_with(c, index, x, y, false)
}

// The same, with the coordinates of the control points in xs and ys, and the length.
pub fn move_into(
    c: &Curve,
    index: usize,
    x: f64,
    y: f64,
    xs: &mut [f64],
    ys: &mut [f64],
    length: &mut f64,
) -> Result<(), Refusal>
    ensures { moved_out (verdict result) xs.new ys.new length.new
        ≡ moved_into c.now index x y xs.old ys.old length.old }
{
    let short = number::either(xs.len() < c.points, ys.len() < c.points);
    let curve = move_with(c, index, x, y, short)?;
    buffer::put(&curve.xs, curve.points, xs, 0);
    buffer::put(&curve.ys, curve.points, ys, 0);
    *length = curve.length;
    Ok(())
}
