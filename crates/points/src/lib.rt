// A curve asked for its points at many parameters in one call: it is checked once, and each parameter is judged by itself.
#![tactic(auto)]

ghost use Rattle.std.specs.Prelude.{◌≡◌, length};
ghost use Rattle.meaning.specs.Scalar.{plain};
ghost use Rattle.refusal.specs.Refusals.{first_of, verdict};
ghost use Rattle.refusal.proofs.Rows.{Passed};
ghost use Rattle.evaluate.specs.Point.{orders_of};
ghost use Rattle.evaluate.specs.Piece.{found};
ghost use Rattle.many.specs.Many.{many};
ghost use Rattle.many.proofs.Asked.{Asked};
ghost use Rattle.point.specs.Point.{numbers_for};
ghost use Rattle.points.specs.Points.{call_rows, points_answer, EachInItsHull, NoneRefused};
ghost use Rattle.points.specs.Turn.{each_of, Fits};

use offer::Offer;
use refusal::Refusal;

// ---- the call itself

// Why a call for so many parameters is refused, past the rules of its curve, if it is.
fn check_call(count: usize, order: usize, out: usize, refusals: usize) -> Result<(), Refusal>
    ensures { verdict result ≡ first_of (call_rows count order out refusals) }
{
    if order > 4 {
        return Err(Refusal::TooMuchAsked);
    }
    many::room(count, 2 * (order + 1), out, refusals)
}

// ---- one parameter after the other

// Every parameter of a curve that its rules let through, each in its place.
// Stays: an index into out and refusals. `chunks_mut` and a `zip` of `iter_mut` leave nothing known of what was written through them.
fn answer_each<C: Offer>(curve: &C, ts: &[f64], order: usize, out: &mut [f64], refusals: &mut [u64])
    requires passed { Passed (C.offered curve.now).rules }
    requires fits { Fits (length ts.now) order out.old refusals.old }
    ensures { Asked (numbers_for order)
        (each_of (λ t. orders_of plain (found (C.offered curve.now).shape) (C.offered curve.now).shape t order) ts.now order)
        out.old refusals.old (length ts.now) out.new refusals.new }
{
    let w = 2 * (order + 1);
    for (k, t) in ts.iter().enumerate() {
        let at = k * w;
        let room = curve.orders(*t, order);
        let answer = point::answer_point(&room, *t, order, &mut out[at..at + w]);
        refusals[k] = refusal::number_of(answer);
    }
}

// ---- the door

// The points at the parameters ts with their derivatives up to the order, those of one parameter behind those of the one before it, 2 * (order + 1)
// numbers each; and for each parameter its refusal. The place of a parameter that is refused stays as it was.
// Corresponds to spline.rs: Curve::eval, for each parameter.
pub fn evaluate_many<C: Offer>(
    curve: &C,
    ts: &[f64],
    order: usize,
    out: &mut [f64],
    refusals: &mut [u64],
) -> Result<(), Refusal>
    ensures answer { many (verdict result) out.new refusals.new
        ≡ points_answer (C.offered curve.now) ts.now order out.old refusals.old }
    ensures hull { EachInItsHull (C.offered curve.now) ts.now order (verdict result)
        out.new refusals.new }
    ensures never { NoneRefused (C.offered curve.now) ts.now order out.old (verdict result)
        refusals.new }
{
    curve.check()?;
    check_call(ts.len(), order, out.len(), refusals.len())?;
    answer_each(curve, ts, order, out, refusals);
    Ok(())
}
