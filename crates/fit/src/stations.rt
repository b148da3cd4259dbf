// The parameters and the knots of a curve through points, over any scalar. A slice that is filled may have any length: each number is told by its index.
#![tactic(auto)]

ghost use Rattle.std.specs.Prelude.{◌≡◌, ◌+◌, length};
ghost use Rattle.meaning.specs.Table.{at1};
ghost use Rattle.meaning.specs.Search.{listed};
ghost use Rattle.plane.specs.View.{view};
ghost use Rattle.fit.specs.Parameters.{step_of, sum_of, parameter_at, knot_at};

use plane::P2;
use scalar::Scalar;

// The step from point a to point b.
pub fn step<S: Scalar>(a: P2<S>, b: P2<S>) -> S
    ensures { result ≡ step_of S.ops (view a) (view b) }
{
    let d = b - a;
    d.dot(d).plus(S::cst(1e-24)).root().root()
}

// The sum of the steps, from 0 in order.
fn total<S: Scalar>(steps: &[S]) -> S
    ensures { result ≡ sum_of S.ops (at1 S.ops steps.now) (length steps.now) }
{
    let mut sum = S::cst(0.0);
    for step in steps {
        sum = sum.plus(*step);
    }
    sum
}

// The parameters of the points that have these steps between them: 0, the running sums over the total, and 1 from the last point on.
pub fn parameters<S: Scalar>(steps: &[S], out: &mut [S])
    ensures { out.new ≡ listed 0 (length out.old) (parameter_at S.ops (at1 S.ops steps.now) (length steps.now + 1)) }
{
    let all = total(steps);
    let mut sum = S::cst(0.0);
    for (k, p) in out.iter_mut().enumerate() {
        *p = if k == 0 {
            S::cst(0.0)
        } else if k < steps.len() {
            sum = sum.plus(steps[k - 1]);
            sum.over(all)
        } else {
            S::cst(1.0)
        };
    }
}

// Knot j of the curve through the points with these parameters: four 0, the inner parameters, four 1, and +0.0 past those.
fn knot_at<S: Scalar>(parameters: &[S], j: usize) -> S
    ensures { result ≡ knot_at S.ops (at1 S.ops parameters.now) (length parameters.now) j }
{
    let n = parameters.len();
    if j < 4 {
        S::cst(0.0)
    } else if j - 2 < n {
        parameters[j - 3]
    } else if j < 6 || j - 6 < n {
        S::cst(1.0)
    } else {
        S::cst(0.0)
    }
}

// The knots of that curve, from the first on.
pub fn knots_by<S: Scalar>(parameters: &[S], out: &mut [S])
    ensures { out.new ≡ listed 0 (length out.old) (knot_at S.ops (at1 S.ops parameters.now) (length parameters.now)) }
{
    for (j, u) in out.iter_mut().enumerate() {
        *u = knot_at(parameters, j);
    }
}
