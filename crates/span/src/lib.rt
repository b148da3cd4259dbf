// The span of a parameter, found by a count.
#![tactic(auto)]

ghost use Rattle.std.specs.Prelude.{◌≡◌, true, ◌≤◌, ◌<◌, length};
ghost use Rattle.span.specs.Span.{IsSpan};
ghost use Rattle.span.specs.Counting.{counted_of};
ghost use Rattle.span.specs.Within.{within};

// The span by a count, for n control points: 3 and the knots from knot 4 on, below knot n, that t is not below. It has no exit, so that a processor
// compares several knots at once, and no branch that a parameter decides.
fn counted(u: &[f64], n: usize, t: f64) -> usize
    requires fact_1 { 4 ≤ n }
    requires fact_2 { n ≤ 66 }
    requires fact_3 { n < length u.now }
    ensures fact_1 { result ≡ counted_of u.now n t }
    ensures fact_2 { 3 ≤ result }
    ensures fact_3 { result < n }
{
    if t >= u[n] {
        return n - 1;
    }
    if t <= u[3] {
        return 3;
    }
    3 + u[4..n].iter().filter(|knot| !(t < **knot)).count()
}

// The span of t among the knots of n control points where these do not fall; what the count comes to where they do, and 3 where n has no curve
// or u no knot n.
// Corresponds to spline.rs: Curve::span.
pub fn span(u: &[f64], n: usize, t: f64) -> usize
    ensures fact_1 { result ≡ counted_of u.now n t }
    ensures fact_2 { IsSpan u.now n t result }
    ensures fact_3 { 3 ≤ result }
    ensures fact_4 { result ≤ 65 }
    ensures fact_5 { (4 ≤ n → result < n) }
{
    if n < 4 || n > 66 || n >= u.len() {
        return 3;
    }
    counted(u, n, t)
}

// Whether t lies past knot 3 and in span i, for who has an i to try: among knots that do not fall i is then the span of t.
// Corresponds to spline.rs: what Curve::span looks for.
pub fn within(u: &[f64], n: usize, t: f64, i: usize) -> bool
    ensures fact_1 { result ≡ within u.now n t i }
    ensures fact_2 { (result ≡ true → (3 ≤ i) × (i ≤ 65)) }
{
    if i < 3 || i >= n || n > 66 || n >= u.len() || t <= u[3] {
        return false;
    }
    u[i] <= t && t < u[i + 1]
}
