// Uniform knots.
#![tactic(auto)]

ghost use Rattle.std.specs.Prelude.{◌≡◌, ◌≤◌};
ghost use Rattle.uniform.specs.Uniform.{uniform_at, uniform_of};

use std::array;

// Knot j of the uniform knots for n control points.
fn uniform_at(n: usize, j: usize) -> f64
    requires { (4 ≤ n) × (n ≤ 66) }
    ensures { result ≡ uniform_at n j }
{
    if j < 4 {
        0.0
    } else if j < n {
        (j - 3) as f64 / (n - 3) as f64
    } else if j < n + 4 {
        1.0
    } else {
        0.0
    }
}

// The uniform knots for n control points, all +0.0 where no curve has so many.
// Corresponds to spline.rs: Curve::new.
pub fn uniform(n: usize) -> [f64; 70]
    ensures { result ≡ uniform_of n }
{
    if n < 4 || n > 66 {
        return [0.0; 70];
    }
    array::from_fn(|j| uniform_at(n, j))
}
