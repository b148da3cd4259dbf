// The length of a curve's control polygon, from coordinates that stand in a row, or x and y in turn.
#![tactic(auto)]

ghost use Rattle.std.specs.Prelude.{◌≡◌, ◌-◌, ◌*◌, ◌/◌, ◌≤◌, ◌<◌, length};
ghost use Rattle.meaning.specs.Scalar.{plain};
ghost use Rattle.meaning.specs.Table.{at1};
ghost use Rattle.plane.specs.View.{view};
ghost use Rattle.polygon.specs.Polygon.{length_by, length_of};
ghost use Rattle.polygon.specs.Stepped.{corner_at, corner_in};

use plane::P2;

// The corner at these places.
fn corner<'a>(xs: &'a [f64], ys: &'a [f64], at: usize) -> P2<f64>
    requires { (at < length xs.now) × (at < length ys.now) }
    ensures { view result ≡ record { x = at1 plain xs.now at; y = at1 plain ys.now at } }
{
    P2 {
        x: xs[at],
        y: ys[at],
    }
}

// The sum of the edges of a polygon of n corners.
// Stays: a corner stands at two places, a step apart from the next, which an iterator over either list would have to skip to.
fn edges<'a>(n: usize, xs: &'a [f64], ys: &'a [f64], step: usize) -> f64
    requires fact_1 { 1 ≤ n }
    requires fact_2 { step ≤ 2 }
    requires fact_3 { step * (n - 1) < length xs.now }
    requires fact_4 { step * (n - 1) < length ys.now }
    ensures { result ≡ length_by plain (corner_at step xs.now ys.now) n }
{
    let mut s = 0.0;
    for i in 1..n {
        let a = corner(xs, ys, step * i);
        let b = corner(xs, ys, step * (i - 1));
        s = s + (a - b).norm();
    }
    s
}

// The length of the polygon of n control points. Where they do not all stand there, it is a NaN, as what is read of one that is missing.
// Corresponds to spline.rs: Curve::polygon_length.
pub fn length<'a>(n: usize, xs: &'a [f64], ys: &'a [f64]) -> f64
    ensures { result ≡ length_of plain xs.now ys.now n }
{
    if n < 2 {
        return 0.0;
    }
    if xs.len() < n {
        return 0.0 / 0.0;
    }
    if ys.len() < n {
        return 0.0 / 0.0;
    }
    edges(n, xs, ys, 1)
}

// The same of control points x, y in turn.
pub fn length_in_turn(coords: &[f64]) -> f64
    ensures { result ≡ length_by plain (corner_in coords.now) (length coords.now / 2) }
{
    if coords.len() < 4 {
        return 0.0;
    }
    edges(coords.len() / 2, coords, &coords[1..], 2)
}
