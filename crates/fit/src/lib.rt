// Curves through points: the parameters and knots, the system of the control points, and the build.
#![tactic(auto)]

ghost use Rattle.std.specs.Prelude.{◌≡◌, ◌||◌, ◌+◌, ◌-◌, ◌*◌, ◌≤◌, ◌<◌, length};
ghost use Rattle.std.specs.Float.Ieee.Scale.{finite};
ghost use Rattle.std.specs.List.{list_all};
ghost use Rattle.meaning.specs.Scalar.{plain};
ghost use Rattle.meaning.specs.Search.{listed};
ghost use Rattle.plane.specs.View.{view};
ghost use Rattle.solve.specs.View as Solve;
ghost use Rattle.shape.specs.Shape.{points_in};
ghost use Rattle.fit.specs.Parameters.{point_at, step_at, fit_parameter};
ghost use Rattle.fit.specs.System.{spread, with_sides};
ghost use Rattle.knots.specs.Given.{given, given_list};
ghost use Rattle.curve.specs.Build.{build_of};
ghost use Rattle.fit.specs.Fit.{making};
ghost use Rattle.fit.specs.Fitting.{work_for, work_short, fitting};
ghost use Rattle.fit.specs.Stored.{four_put, sides_put, found_row, found_fit_row, Stored, StoredAt, StoredAll, curve_with, interpolated};

pub mod stations;

use curve::Curve;
use knots::Form;
use plane::P2;
use refusal::Refusal;
use rooms::Rooms;
use solve::Solved;

// ---- the parameters and the knots

// Fit point k.
fn point(q: &[f64], k: usize) -> P2<f64>
    requires { 2 * k + 1 < length q.now }
    ensures { view result ≡ point_at plain q.now k }
{
    P2 {
        x: q[2 * k],
        y: q[2 * k + 1],
    }
}

// The steps between the fit points, as many as out has room for.
// Stays: `fit_partials` has this and the next over variables. One for both would be handed the points by a closure, which is not callable for every k,
// and no public function may ask anything of its arguments.
fn steps(q: &[f64], out: &mut [f64])
    requires { 2 * length out.old + 2 ≤ length q.now }
    ensures { out.new ≡ listed 0 (length out.old) (step_at plain q.now) }
{
    for (k, s) in out.iter_mut().enumerate() {
        *s = stations::step(point(q, k), point(q, k + 1));
    }
}

// The parameters of the fit points, of which out has room for every one.
fn fit_parameters(q: &[f64], out: &mut [f64])
    requires { (2 ≤ length out.old) × (length out.old ≤ 64) × (2 * length out.old ≤ length q.now) }
    ensures { out.new ≡ listed 0 (length out.old) (fit_parameter plain q.now (length out.old)) }
{
    let mut room = [0.0; 64];
    let between = &mut room[..out.len() - 1];
    steps(q, between);
    stations::parameters(between, out);
}

// ---- the system

// Four numbers in a row, from column at on.
fn put_four(t: &mut [f64], four: [f64; 4], at: usize)
    requires { at + 3 < length t.old }
    ensures { t.new ≡ four_put four at t.old }
{
    t[at..at + 4].copy_from_slice(&four);
}

// The right sides of a row of m matrix numbers.
fn put_sides(t: &mut [f64], m: usize, b: P2<f64>)
    requires { m + 1 < length t.old }
    ensures { t.new ≡ sides_put m (view b) t.old }
{
    t[m..m + 2].copy_from_slice(&[b.x, b.y]);
}

// Whether each number is finite.
fn all_finite(a: &[f64]) -> bool
    ensures { result ≡ list_all finite a.now }
{
    a.iter().all(|x| number::is_finite(*x))
}

// A row filled with four numbers in the columns i - 3 to i and the right sides. Answers whether all that is stored is finite: the others are +0.0.
fn fill_row(t: &mut [f64], four: [f64; 4], i: usize, m: usize, b: P2<f64>) -> bool
    requires { (m ≤ 66) × (length t.old ≡ m + 2) × (3 ≤ i) × (i < m) }
    ensures { Stored (listed 0 (m + 2) (with_sides plain m (spread plain four i) (view b))) t.new result }
{
    buffer::clear(t);
    put_four(t, four, i - 3);
    put_sides(t, m, b);
    all_finite(&[b.y, b.x, four[3], four[2], four[1], four[0]])
}

// The row that says: the derivative of order d at t is b.
fn set_row(row: &mut [f64], u: &[f64; 70], m: usize, t: f64, d: usize, b: P2<f64>) -> bool
    requires { (4 ≤ m) × (m ≤ 66) × (d ≤ 4) × (length row.old ≡ m + 2) }
    ensures { Stored (found_row u.now m t d (view b)) row.new result }
{
    let i = span::span(u, m, t);
    let ders = derivatives::basis_in(u, i, t, d);
    fill_row(row, ders[d], i, m, b)
}

// What the system is made of: the knots, and the fit points with their parameters.
#[derive(Clone, Copy)]
struct System<'a> {
    u: &'a [f64; 70],
    p: &'a [f64],
    q: &'a [f64],
    ghost points: { (2 ≤ length p.now) × (length p.now ≤ 64) × (2 * length p.now ≤ length q.now) },
}

impl System<'_> {
    // Row r of the system.
    fn set(&self, row: &mut [f64], r: usize) -> bool
        requires { let n = length self.now.p.now in (r < n + 2) × (length row.old ≡ n + 2 + 2) }
        ensures { let s = self.now in Stored (found_fit_row s.u.now s.p.now s.q.now (length s.p.now) r) row.new result }
    {
        let n = self.p.len();
        let straight = P2 { x: 0.0, y: 0.0 };
        if r == 0 {
            return set_row(row, self.u, n + 2, 0.0, 2, straight);
        }
        if r <= n {
            return set_row(row, self.u, n + 2, self.p[r - 1], 0, point(self.q, r - 1));
        }
        set_row(row, self.u, n + 2, 1.0, 2, straight)
    }

    // The same in its place in the work buffer.
    // Stays: a row is found by its place, since of what `chunks_exact_mut` lends a proof knows the lengths alone afterwards.
    fn set_at(&self, w: &mut [f64], r: usize) -> bool
        requires { let n = length self.now.p.now in (r < n + 2) × ((n + 2) * (n + 2 + 2) ≤ length w.old) }
        ensures { let s = self.now in let n = length s.p.now in
            StoredAt (n + 2) r (found_fit_row s.u.now s.p.now s.q.now n r) w.old w.new result }
    {
        let s = self.p.len() + 2 + 2;
        self.set(&mut w[r * s..r * s + s], r)
    }

    // Every row of the system. Answers whether all that is stored is finite.
    fn fill(&self, w: &mut [f64]) -> bool
        requires { let n = length self.now.p.now in (n + 2) * (n + 2 + 2) ≤ length w.old }
        ensures { let s = self.now in StoredAll s.u.now s.p.now s.q.now (length s.p.now) w.old w.new result }
    {
        let mut fine = true;
        for r in 0..self.p.len() + 2 {
            fine &= self.set_at(w, r);
        }
        fine
    }
}

// ---- the build

// The curve of m control points, if they could be solved for, with the knots u, or refusal 15. `stored` is the verdict on the system.
fn curve_with(m: usize, u: [f64; 70], stored: bool, s: Option<Solved>) -> Result<Curve, Refusal>
    ensures { build_of result ≡ curve_with m u stored (Solve.view s) }
{
    let Some(s) = s else {
        return Err(Refusal::WildOutcome);
    };
    let xs = s.xs;
    let ys = s.ys;
    let wild = outcome::first_wild(&u, 70) < 70;
    let rooms = Rooms {
        points: m,
        xs,
        ys,
        knots: u,
    };
    Curve::measured(rooms, number::both(!wild, stored))
}

// The curve through points that the rules 1 to 14 let through, or refusal 15.
// Corresponds to spline.rs: Curve::interpolate.
fn interpolate(q: &[f64], work: &mut [f64]) -> Result<Curve, Refusal>
    requires { (2 ≤ points_in q.now) × (points_in q.now ≤ 64) × (work_for q.now ≤ length work.old) }
    ensures { making (build_of result) work.new ≡ interpolated q.now work.old }
{
    let n = q.len() / 2;
    let mut room = [0.0; 64];
    let p = &mut room[..n];
    fit_parameters(q, p);
    let mut u = [0.0; 70];
    stations::knots_by(p, &mut u);
    let stored = System { u: &u, p, q }.fill(work);
    let s = solve::solve(work, n + 2);
    curve_with(n + 2, u, stored, s)
}

// The curve through fit points x, y in turn, by the rules for them. `short` tells whether a slice that the caller has for the answer is short, which
// is 14.
// Corresponds to spline.rs: BSpline::from_fit_points.
pub fn build_fit(
    q: &[f64],
    knots: Option<&[f64]>,
    short: bool,
    work: &mut [f64],
) -> Result<Curve, Refusal>
    ensures { making (build_of result) work.new ≡ fitting q.now (given knots.entry)
        (given_list (λ k. k.now) knots.entry) (work_short q.now work.old || short) work.old }
{
    shape::check_handles(Form::Fit, q, knots)?;
    let m = q.len() / 2 + 2;
    if number::either(work.len() < m * (m + 2), short) {
        return Err(Refusal::ShortSlice);
    }
    interpolate(q, work)
}
