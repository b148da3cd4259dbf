// What is asked of a curve at a parameter: the point with its derivatives, the unit tangent. A curve is checked again, whoever made it.
#![tactic(auto)]

ghost use Rattle.std.specs.Prelude.{◌≡◌};
ghost use Rattle.refusal.specs.Refusals.{verdict};
ghost use Rattle.outcome.specs.Outcome.{outcome, answering};
ghost use Rattle.hull.specs.Promise.{InItsHull, NeverRefused};
ghost use Rattle.point.specs.Point.{numbers_for, point_rows, point_answer, unit_in, tangent_rows, tangent_answer};

use offer::Offer;
use plane::P2;
use refusal::Refusal;

// The orders 0 to order, which stand in room, as the answer at t.
pub fn answer_point(room: &[f64; 10], t: f64, order: usize, out: &mut [f64]) -> Result<(), Refusal>
    ensures { outcome (verdict result) out.new
        ≡ answering (point_rows room.now t order out.old) room.now (numbers_for order) out.old }
{
    if !number::is_finite(t) {
        return Err(Refusal::WildParameter);
    }
    if order > 4 {
        return Err(Refusal::TooMuchAsked);
    }
    outcome::deliver(room, 2 * (order + 1), out)
}

// The point, and the unit tangent, from the orders 0 and 1, as the answer at t.
fn answer_tangent(room: &[f64; 10], t: f64, out: &mut [f64]) -> Result<(), Refusal>
    ensures { outcome (verdict result) out.new
        ≡ answering (tangent_rows (unit_in room.now) t out.old) (unit_in room.now) 4 out.old }
{
    if !number::is_finite(t) {
        return Err(Refusal::WildParameter);
    }
    let d = P2 {
        x: room[2],
        y: room[3],
    };
    let unit = d.unit();
    let four = [room[0], room[1], unit.x, unit.y];
    outcome::deliver(&four, 4, out)
}

// The point at t and its derivatives up to the order, x and y in turn: 2 * (order + 1) numbers.
// Corresponds to spline.rs: Curve::eval.
pub fn evaluate<C: Offer>(curve: &C, t: f64, order: usize, out: &mut [f64]) -> Result<(), Refusal>
    ensures answer { outcome (verdict result) out.new ≡ point_answer (C.offered curve.now) t order out.old }
    ensures hull { InItsHull (C.offered curve.now) t (verdict result) out.new }
    ensures never { NeverRefused (C.offered curve.now) t order out.old (verdict result) }
{
    curve.check()?;
    answer_point(&curve.orders(t, order), t, order, out)
}

// The point at t and the unit tangent: four numbers.
// Corresponds to spline.rs: point_tangent.
pub fn point_tangent<C: Offer>(curve: &C, t: f64, out: &mut [f64]) -> Result<(), Refusal>
    ensures answer { outcome (verdict result) out.new ≡ tangent_answer (C.offered curve.now) t out.old }
    ensures hull { InItsHull (C.offered curve.now) t (verdict result) out.new }
{
    curve.check()?;
    answer_tangent(&curve.orders(t, 1), t, out)
}
