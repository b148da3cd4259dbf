// A point of a curve and its derivatives, from what one span reads: six knots and four control points. In plain doubles these are looked for in a
// record's rooms or in slices, which the doors above check; on values with partials that is the caller's to do.
#![tactic(auto)]

ghost use Rattle.std.specs.Prelude.{◌≡◌, ◌↔◌, ◌+◌, ◌*◌, ◌≤◌, ◌<◌, IsTrue, length};
ghost use Rattle.meaning.specs.Scalar.{plain};
ghost use Rattle.partials.specs.Dual.{dual};
ghost use Rattle.basis.specs.Basis.{window};
ghost use Rattle.plane.specs.View.{view};
ghost use Rattle.shape.specs.Spline.{shape_of};
ghost use Rattle.evaluate.specs.Point.{weighted, placed, straight_on, orders_of};
ghost use Rattle.evaluate.specs.Straight.{straight_of, end_past};
ghost use Rattle.evaluate.specs.Piece.{found, four_of, of_four, on_piece, by_end, piece_of, slice_orders};
ghost use Rattle.evaluate.specs.Near.{point_near};

use partials::Dv;
use plane::P2;
use scalar::Scalar;
use shape::Spline;

// ---- one span

// What a span reads of a curve: for span i the six knots from knot i - 2 to knot i + 3, and the control points i - 3 to i.
#[derive(Clone, Copy)]
pub struct Piece<S> {
    pub knots: [S; 6],
    pub xs: [S; 4],
    pub ys: [S; 4],
}

// One coordinate of a point: four control points, each times its basis value, summed from +0.0.
fn weigh<S: Scalar>(a: &[S; 4], row: &[S; 4]) -> S
    ensures { result ≡ weighted S.ops a.now 3 row.now }
{
    a.iter()
        .zip(row)
        .fold(S::cst(0.0), |sum, (x, y)| sum.plus(x.times(*y)))
}

impl<S: Scalar> Piece<S> {
    // Both coordinates, for a row of basis values.
    fn combine(&self, row: &[S; 4]) -> P2<S>
        ensures { view result ≡ record {
          x = weighted S.ops self.now.xs 3 row.now;
          y = weighted S.ops self.now.ys 3 row.now;
        } }
    {
        let x = weigh(&self.xs, row);
        let y = weigh(&self.ys, row);
        P2 { x, y }
    }

    // The point at t.
    // Corresponds to spline.rs: Curve::eval_span.
    pub fn inside(&self, t: S) -> P2<S>
        ensures { view result ≡ on_piece S.ops self.now t 0 0 }
    {
        let row = basis_straight::values(&self.knots, t);
        self.combine(&row)
    }

    // The point and the tangent, from the rows of the basis.
    fn tangent(&self, ders: &[[S; 4]; 5]) -> (P2<S>, P2<S>)
        ensures point { view result.0 ≡ of_four S.ops self.now.xs self.now.ys ders.now 0 }
        ensures tangent { view result.1 ≡ of_four S.ops self.now.xs self.now.ys ders.now 1 }
    {
        let p = self.combine(&ders[0]);
        let d = self.combine(&ders[1]);
        (p, d)
    }
}

// ---- with partials

impl Piece<Dv> {
    // The point at t past the end e of the domain, straight on along the tangent at e; the piece is that of the span of e.
    // Stays: of values with partials alone, since code over any scalar that calls `basis` would owe that its five rows fit in memory.
    // Corresponds to spline.rs: Curve::eval.
    pub fn beyond(&self, e: Dv, t: Dv) -> P2<Dv>
        ensures { view result ≡ straight_on dual (on_piece dual self.now e 1) e t 0 }
    {
        let ders = derivatives::basis(&self.knots, e, 1);
        let (p, d) = self.tangent(&ders);
        p + d.scale(t - e)
    }
}

// ---- in doubles

// The point p alone, in the room for five orders.
fn alone(p: P2<f64>) -> [f64; 10]
    ensures { result ≡ placed plain 1 (λ k. view p) }
{
    [p.x, p.y, 0.0, 0.0, 0.0, 0.0, 0.0, 0.0, 0.0, 0.0]
}

// The point p, then the tangent d, then zeros, as far as order nd.
fn straight(p: P2<f64>, d: P2<f64>, nd: usize) -> [f64; 10]
    requires { nd ≤ 4 }
    ensures { result ≡ placed plain (nd + 1) (straight_of (view p) (view d)) }
{
    if nd == 0 {
        return alone(p);
    }
    [p.x, p.y, d.x, d.y, 0.0, 0.0, 0.0, 0.0, 0.0, 0.0]
}

impl Piece<f64> {
    // The orders 0 to nd at t, x and y in turn. For the point alone the basis's values are enough, which take a fraction of the time.
    // Inlined where the piece is read, as is the next: from registers, a processor need not wait for what it has just stored.
    // Corresponds to spline.rs: Curve::eval_span.
    #[inline(always)]
    fn orders(&self, t: f64, nd: usize) -> [f64; 10]
        requires { nd ≤ 4 }
        ensures { result ≡ placed plain (nd + 1) (on_piece plain self.now t nd) }
    {
        if nd == 0 {
            return alone(self.inside(t));
        }
        let ders = derivatives::basis(&self.knots, t, nd);
        let mut out = [0.0; 10];
        for (k, row) in ders[..=nd].iter().enumerate() {
            let p = self.combine(row);
            out[2 * k] = p.x;
            out[2 * k + 1] = p.y;
        }
        out
    }

    // The same, straight on from the end of the domain past which t lies, where it lies past one.
    #[inline(always)]
    fn orders_by(&self, end: Option<f64>, t: f64, nd: usize) -> [f64; 10]
        requires { nd ≤ 4 }
        ensures { result ≡ placed plain (nd + 1) (by_end plain end (on_piece plain self.now) t nd) }
    {
        match end {
            None => self.orders(t, nd),
            Some(e) => {
                let ders = derivatives::basis(&self.knots, e, 1);
                let (p, d) = self.tangent(&ders);
                straight(p + d.scale(t - e), d, nd)
            }
        }
    }
}

// ---- what is asked

// Whether there are curves with n control points, and an order nd.
fn in_range(n: usize, nd: usize) -> bool
    ensures { IsTrue result ↔ (4 ≤ n) × (n ≤ 66) × (nd ≤ 4) }
{
    (4..=66).contains(&n) && nd <= 4
}

// The end past which t lies, of a domain from lo to hi.
fn end_past(lo: f64, hi: f64, t: f64) -> Option<f64>
    ensures { result ≡ end_past lo hi t }
{
    if t < lo {
        return Some(lo);
    }
    if t > hi {
        return Some(hi);
    }
    None
}

// The six knots that span i reads.
fn six(u: &[f64], i: usize) -> [f64; 6]
    requires fact_1 { 3 ≤ i }
    requires fact_2 { i + 3 < length u.now }
    ensures { result ≡ window plain u.now i }
{
    [u[i - 2], u[i - 1], u[i], u[i + 1], u[i + 2], u[i + 3]]
}

// Four numbers from index at on, step apart: control points in a row, or every second number.
fn four(a: &[f64], at: usize, step: usize) -> [f64; 4]
    requires { at + 3 * step < length a.now }
    ensures { result ≡ four_of plain a.now at step }
{
    [a[at], a[at + step], a[at + 2 * step], a[at + 3 * step]]
}

// ---- of a record's rooms

// What span i reads.
fn piece_at(spline: Spline, i: usize) -> Piece<f64>
    requires { (3 ≤ i) × (i ≤ 65) }
    ensures { result ≡ piece_of plain (shape_of spline.entry) i }
{
    let Spline { xs, ys, knots, .. } = spline;
    Piece {
        knots: six(knots, i),
        xs: four(xs, i - 3, 1),
        ys: four(ys, i - 3, 1),
    }
}

// The orders 0 to nd at t, x and y in turn; zeros where the count of control points or nd is out of range.
// Corresponds to spline.rs: Curve::eval.
pub fn orders(spline: Spline, t: f64, nd: usize) -> [f64; 10]
    ensures { result ≡ orders_of plain (found (shape_of spline.entry)) (shape_of spline.entry) t nd }
{
    let Spline { n, knots, .. } = spline;
    if !in_range(n, nd) {
        return [0.0; 10];
    }
    let end = end_past(knots[0], knots[n + 3], t);
    let i = span::span(knots, n, end.unwrap_or(t));
    piece_at(spline, i).orders_by(end, t, nd)
}

// The point alone, for who asks at one parameter after the other: the span is i where t lies in it, so that none is looked for.
// Corresponds to spline.rs: Curve::eval.
pub fn point_near(spline: Spline, t: f64, i: usize) -> P2<f64>
    ensures { view result ≡ point_near (shape_of spline.entry) t i }
{
    let Spline { n, knots, .. } = spline;
    if span::within(knots, n, t, i) {
        return piece_at(spline, i).inside(t);
    }
    let at = orders(spline, t, 0);
    P2 { x: at[0], y: at[1] }
}

// ---- of slices

// The same as orders for control points x, y in turn and knots; zeros, too, where these are not four more than the points.
pub fn orders_slices(knots: &[f64], coords: &[f64], t: f64, nd: usize) -> [f64; 10]
    ensures { result ≡ slice_orders coords.now knots.now t nd }
{
    let n = coords.len() / 2;
    if knots.len() != n + 4 || !in_range(n, nd) {
        return [0.0; 10];
    }
    let end = end_past(knots[0], knots[n + 3], t);
    let i = span::span(knots, n, end.unwrap_or(t));
    let at = 2 * (i - 3);
    let piece = Piece {
        knots: six(knots, i),
        xs: four(coords, at, 2),
        ys: four(coords, at + 1, 2),
    };
    piece.orders_by(end, t, nd)
}
