// The cubic B-spline basis on a span, over any scalar, by its statements written out: the values alone, and the second derivatives alone, without the
// table of A2.3, whose rows would be slow to copy. Every operation is one of A2.3's, in its order, so that each answer is a row of the whole basis.
#![tactic(auto)]

ghost use Rattle.std.specs.Prelude.{◌≡◌, [], get_or};
ghost use Rattle.basis.specs.Triangle.{cell_of, triangle_of};
ghost use Rattle.basis.specs.Basis.{derivatives_of};
ghost use Rattle.basis_straight.specs.Second.{entries_of, function0, function1, function2, function3};
ghost use Rattle.basis_straight.specs.View.{view_cell, view_entries};

use scalar::Scalar;

// What a turn of the table's inner loop makes: a knot difference, a basis value, and what the next turn adds to its own.
#[derive(Clone, Copy)]
pub struct Cell<S> {
    pub gap: S,
    pub value: S,
    pub saved: S,
}

// The inner loop's statements, on the values that they read.
// Corresponds to spline.rs: Curve::basis.
pub fn cell_of<S: Scalar>(right: S, left: S, before: S, saved: S) -> Cell<S>
    ensures { view_cell result ≡ cell_of S.ops right left before saved }
{
    let gap = right.plus(left);
    let temp = before.over(gap);
    Cell {
        gap,
        value: saved.plus(right.times(temp)),
        saved: left.times(temp),
    }
}

// The values of the four basis functions of a span at t: of the parameter and each knot beside the span the difference, and then three columns of
// cells. The span is given by the six knots w that it reads: for span i those from knot i - 2 to knot i + 3.
// Corresponds to spline.rs: Curve::basis.
pub fn values<S: Scalar>(w: &[S; 6], t: S) -> [S; 4]
    ensures { result ≡ get_or (derivatives_of S.ops w.now 2 t 0) 0 [] }
{
    let l1 = t.minus(w[2]);
    let l2 = t.minus(w[1]);
    let l3 = t.minus(w[0]);
    let r1 = w[3].minus(t);
    let r2 = w[4].minus(t);
    let r3 = w[5].minus(t);
    let zero = S::cst(0.0);
    let one = S::cst(1.0);
    let a = cell_of(r1, l1, one, zero);
    let b = cell_of(r1, l2, a.value, zero);
    let c = cell_of(r2, l1, a.saved, b.saved);
    let d = cell_of(r1, l3, b.value, zero);
    let e = cell_of(r2, l2, c.value, d.saved);
    let f = cell_of(r3, l1, c.saved, e.saved);
    [d.value, e.value, f.value, f.saved]
}

// What the second derivatives read of the table: the knot differences in its rows 2 and 3, and the two values in its column 1.
#[derive(Clone, Copy)]
struct Entries<S> {
    g20: S,
    g21: S,
    g30: S,
    g31: S,
    g32: S,
    low: S,
    high: S,
}

// These entries of the table of the span whose six knots are w, at t.
fn entries_of<S: Scalar>(w: &[S; 6], t: S) -> Entries<S>
    ensures { view_entries result ≡ entries_of S.ops (triangle_of S.ops w.now 2 t) }
{
    let l1 = t.minus(w[2]);
    let l2 = t.minus(w[1]);
    let l3 = t.minus(w[0]);
    let r1 = w[3].minus(t);
    let r2 = w[4].minus(t);
    let r3 = w[5].minus(t);
    let a = cell_of(r1, l1, S::cst(1.0), S::cst(0.0));
    Entries {
        g20: r1.plus(l2),
        g21: r2.plus(l1),
        g30: r1.plus(l3),
        g31: r2.plus(l2),
        g32: r3.plus(l1),
        low: a.value,
        high: a.saved,
    }
}

// The second derivative of function 0: its coefficient of order 1, the coefficient of order 2 from it, and the factor 3 * 2.
fn function_0<S: Scalar>(e: &Entries<S>) -> S
    ensures { result ≡ function0 S.ops (view_entries e.now) }
{
    let a = S::cst(1.0).opp().over(e.g30);
    let sum = S::cst(0.0).plus(a.opp().over(e.g20).times(e.low));
    sum.times(S::cst(6.0))
}

// That of function 1, which has two coefficients of each order.
fn function_1<S: Scalar>(e: &Entries<S>) -> S
    ensures { result ≡ function1 S.ops (view_entries e.now) }
{
    let one = S::cst(1.0);
    let b = one.over(e.g30);
    let c = one.opp().over(e.g31);
    let first = S::cst(0.0).plus(c.minus(b).over(e.g20).times(e.low));
    let sum = first.plus(c.opp().over(e.g21).times(e.high));
    sum.times(S::cst(6.0))
}

// That of function 2, with two coefficients too; the first begins the sum.
fn function_2<S: Scalar>(e: &Entries<S>) -> S
    ensures { result ≡ function2 S.ops (view_entries e.now) }
{
    let one = S::cst(1.0);
    let d = one.over(e.g31);
    let f = one.opp().over(e.g32);
    let first = d.over(e.g20).times(e.low);
    let sum = first.plus(f.minus(d).over(e.g21).times(e.high));
    sum.times(S::cst(6.0))
}

// That of function 3.
fn function_3<S: Scalar>(e: &Entries<S>) -> S
    ensures { result ≡ function3 S.ops (view_entries e.now) }
{
    let a = S::cst(1.0).over(e.g32);
    a.over(e.g21).times(e.high).times(S::cst(6.0))
}

// The second derivatives of the four basis functions of a span at t; the six knots w are those of `values`.
// Corresponds to spline.rs: Curve::basis.
pub fn second<S: Scalar>(w: &[S; 6], t: S) -> [S; 4]
    ensures { result ≡ get_or (derivatives_of S.ops w.now 2 t 2) 2 [] }
{
    let e = entries_of(w, t);
    [
        function_0(&e),
        function_1(&e),
        function_2(&e),
        function_3(&e),
    ]
}
