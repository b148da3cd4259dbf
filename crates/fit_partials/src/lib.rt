// Curves through at most 12 points, with partials with respect to their coordinates: the parameters and knots, and the system of the control points.
#![tactic(auto)]

ghost use Rattle.std.specs.Prelude.{◌≡◌, ℕ, ◌+◌, ◌-◌, ◌*◌, ◌≤◌, ◌<◌, length, drop, replicate};
ghost use Rattle.std.specs.List.{list_all};
ghost use mathlib.Core.List.{[], ◌++◌, flatten};
ghost use Rattle.meaning.specs.Scalar.{zero64};
ghost use Rattle.meaning.specs.Table.{at1};
ghost use Rattle.meaning.specs.Search.{listed};
ghost use Rattle.partials.specs.Dual.{fine_dv, cst_dv, dual};
ghost use Rattle.plane.specs.View as Plane;
ghost use Rattle.basis.specs.Basis.{window};
ghost use Rattle.fit.specs.Parameters.{point_at, step_at, fit_parameter};
ghost use Rattle.fit.specs.System.{spread, with_sides};
ghost use Rattle.solve.specs.Rows.{flat};
ghost use Rattle.solve.specs.Stored.{all_fine};
ghost use Rattle.solve_partials.specs.View as Solve;
ghost use Rattle.shape.specs.Shape.{points_in};
ghost use Rattle.fit_partials.specs.Variables.{variables_of};
ghost use Rattle.fit_partials.specs.Through.{piece_through, cells_for, able, piece_in, doubles_after, counts_after};
ghost use Rattle.fit_partials.specs.View.{view};
ghost use Rattle.fit_partials.specs.Stored.{Tidy, Laid, Room, Stored, side_of, piece_of, of_point, station_of, found_fit_row, found_fit_rows, ReadyFit};

use fit::stations;
use partials::Dv;
use plane::P2;
use solve_partials::Four;

// What a span of a curve reads: its six knots and its four control points.
#[derive(Clone, Copy)]
pub struct Piece {
    pub knots: [Dv; 6],
    pub xs: [Dv; 4],
    pub ys: [Dv; 4],
}

// ---- the parameters and the knots

// Fit point k: its coordinates are the variables 2k and 2k + 1.
fn point(q: &[f64], k: usize) -> P2<Dv>
    requires { 2 * k + 1 < length q.now }
    ensures { Plane.view result ≡ point_at dual (variables_of q.now) k }
{
    let x = Dv::var(q, 2 * k);
    let y = Dv::var(q, 2 * k + 1);
    P2 { x, y }
}

// The steps between the fit points, as many as out has room for.
// Stays: `fit` has this and the next over plain points; why they are apart stands there.
fn steps(q: &[f64], out: &mut [Dv])
    requires { 2 * length out.old + 2 ≤ length q.now }
    ensures { out.new ≡ listed 0 (length out.old) (step_at dual (variables_of q.now)) }
{
    for (k, s) in out.iter_mut().enumerate() {
        *s = stations::step(point(q, k), point(q, k + 1));
    }
}

// The parameters of the fit points, of which out has room for every one.
fn fit_parameters(q: &[f64], out: &mut [Dv])
    requires { (2 ≤ length out.old) × (length out.old ≤ 12) × (2 * length out.old ≤ length q.now) }
    ensures { out.new ≡ listed 0 (length out.old) (fit_parameter dual (variables_of q.now) (length out.old)) }
{
    let mut room = [Dv::cst(0.0); 12];
    let between = &mut room[..out.len() - 1];
    steps(q, between);
    stations::parameters(between, out);
}

// The values of knots, by which a span is found. With 12 points there are 18.
fn values(k: &[Dv; 18]) -> [f64; 18]
    ensures { result ≡ listed 0 18 (λ j. (at1 dual k.now j).v) }
{
    let mut values = [0.0; 18];
    for (j, u) in values.iter_mut().enumerate() {
        *u = k[j].v;
    }
    values
}

// The six knots that span i reads.
fn window_of(k: &[Dv; 18], i: usize) -> [Dv; 6]
    requires { (3 ≤ i) × (i ≤ 14) }
    ensures { result ≡ window dual k.now i }
{
    [k[i - 2], k[i - 1], k[i], k[i + 1], k[i + 2], k[i + 3]]
}

// ---- the system

// Stays: the two slices and the room c go apart, as `cells::put` and `solve_partials::solve` take them.

// Puts a number into cell k, where it lies as it is. Answers whether its value and its partials are finite.
fn store(w: &mut [f64], ns: &mut [u8], c: usize, k: usize, v: Dv) -> bool
    requires fact_1 { Room c k 1 w.old ns.old }
    requires fact_2 { Tidy c v }
    ensures { Stored c k 1 (λ j. v) w.old ns.old w.new ns.new result }
{
    cells::put(w, ns, c, k, v);
    v.is_fine()
}

// +0.0 in n cells from cell `at` on.
fn blank(w: &mut [f64], ns: &mut [u8], c: usize, at: usize, n: usize)
    requires { Room c at n w.old ns.old }
    ensures { Laid c at n (λ j. cst_dv zero64) w.old ns.old w.new ns.new }
{
    let zero = Dv::cst(0.0);
    for k in 0..n {
        cells::put(w, ns, c, at + k, zero);
    }
}

// Four numbers in the cells from cell `at` on. Answers whether they are finite.
fn store_four(w: &mut [f64], ns: &mut [u8], c: usize, at: usize, four: &[Dv; 4]) -> bool
    requires fact_1 { Room c at 4 w.old ns.old }
    requires fact_2 { ((k : ℕ) → Tidy c (at1 dual four.now k)) }
    ensures { Stored c at 4 (at1 dual four.now) w.old ns.old w.new ns.new result }
{
    let mut fine = true;
    for (k, v) in four.iter().enumerate() {
        fine &= store(w, ns, c, at + k, *v);
    }
    fine
}

// The right sides in cell `at` and the next. Answers whether they are finite.
fn store_sides(w: &mut [f64], ns: &mut [u8], c: usize, at: usize, b: &P2<Dv>) -> bool
    requires fact_1 { Room c at 2 w.old ns.old }
    requires fact_2 { Tidy c b.now.x × Tidy c b.now.y }
    ensures { Stored c at 2 (side_of (Plane.view b.now)) w.old ns.old w.new ns.new result }
{
    let x = store(w, ns, c, at, b.x);
    let y = store(w, ns, c, at + 1, b.y);
    x & y
}

// A row of cells from cell `at` on, filled with four numbers in the columns i - 3 to i and the right sides; the others are +0.0. Answers whether all
// that is stored is finite.
fn fill_row(
    w: &mut [f64],
    ns: &mut [u8],
    c: usize,
    at: usize,
    four: &[Dv; 4],
    i: usize,
    m: usize,
    b: &P2<Dv>,
) -> bool
    requires fact_1 { (3 ≤ i) × (i < m) × (m ≤ 14) × Room c at (m + 2) w.old ns.old }
    requires fact_2 { ((k : ℕ) → Tidy c (at1 dual four.now k)) × Tidy c b.now.x × Tidy c b.now.y }
    ensures { Stored c at (m + 2) (with_sides dual m (spread dual four.now i) (Plane.view b.now))
        w.old ns.old w.new ns.new result }
{
    let a = i - 3;
    let e = a + 4;
    blank(w, ns, c, at, a);
    let first = store_four(w, ns, c, at + a, four);
    blank(w, ns, c, at + e, m - e);
    let second = store_sides(w, ns, c, at + m, b);
    first & second
}

// Whether row r is one of a point, of the rows for n points: the first and the last say that the curve ends straight.
fn of_point(n: usize, r: usize) -> bool
    ensures { result ≡ of_point n r }
{
    0 < r && r <= n
}

// At which point's parameter row r stands, of the rows for n points.
fn station(n: usize, r: usize) -> usize
    requires { 1 ≤ n }
    ensures { (result ≡ station_of n r) × (result < n) }
{
    r.saturating_sub(1).min(n - 1)
}

// What the system is made of: the knots with their values, and the fit points with their parameters.
#[derive(Clone, Copy)]
struct System<'a> {
    k: &'a [Dv; 18],
    u: &'a [f64; 18],
    p: &'a [Dv],
    q: &'a [f64],
    ghost points: { (2 ≤ length p.now) × (length p.now ≤ 12) × (2 * length p.now ≤ length q.now) },
}

impl System<'_> {
    // Row r of the system, in its cells. Answers whether all that is stored is finite.
    fn set(&self, w: &mut [f64], ns: &mut [u8], c: usize, r: usize) -> bool
        requires fact_1 { let n = length self.now.p.now in (r < n + 2) × Room c (r * (n + 2 + 2)) (n + 2 + 2) w.old ns.old }
        requires fact_2 { let s = self.now in ReadyFit c (length s.p.now) s.k.now s.p.now s.q.now }
        ensures { let s = self.now in let n = length s.p.now in
            Stored c (r * (n + 2 + 2)) (n + 2 + 2) (at1 dual (found_fit_row s.k.now s.u.now s.p.now s.q.now n r)) w.old ns.old w.new ns.new result }
    {
        let n = self.p.len();
        let t = self.p[station(n, r)];
        let u = self.u;
        let i = span::span(u, n + 2, t.v);
        let six = window_of(self.k, i);
        let at = r * (n + 2 + 2);
        if of_point(n, r) {
            let four = basis_straight::values(&six, t);
            let b = point(self.q, r - 1);
            return fill_row(w, ns, c, at, &four, i, n + 2, &b);
        }
        let four = basis_straight::second(&six, t);
        let zero = Dv::cst(0.0);
        fill_row(w, ns, c, at, &four, i, n + 2, &P2 { x: zero, y: zero })
    }

    // Every row of the system. Answers whether all that is stored is finite.
    fn fill(&self, w: &mut [f64], ns: &mut [u8], c: usize) -> bool
        requires fact_1 { let n = length self.now.p.now in Room c 0 ((n + 2) * (n + 2 + 2)) w.old ns.old }
        requires fact_2 { let s = self.now in ReadyFit c (length s.p.now) s.k.now s.p.now s.q.now }
        ensures fact_1 { let s = self.now in let n = length s.p.now in
            Laid c 0 ((n + 2) * (n + 2 + 2)) (at1 dual (flat (found_fit_rows s.k.now s.u.now s.p.now s.q.now n) [])) w.old ns.old w.new ns.new }
        ensures fact_2 { let s = self.now in
            result ≡ all_fine dual (flatten (found_fit_rows s.k.now s.u.now s.p.now s.q.now (length s.p.now))) }
    {
        let mut fine = true;
        for r in 0..self.p.len() + 2 {
            fine &= self.set(w, ns, c, r);
        }
        fine
    }
}

// ---- what a span reads

// Whether every knot is finite with its partials.
fn all_fine(k: &[Dv; 18]) -> bool
    ensures { result ≡ list_all fine_dv k.now }
{
    k.iter().all(|x| x.is_fine())
}

// The knots of span i and four control points, if they could be solved for and the verdict on all else that is stored is yes.
fn piece_with(k: &[Dv; 18], i: usize, fine: bool, s: Option<Four>) -> Option<Piece>
    requires { (3 ≤ i) × (i ≤ 14) }
    ensures { view result ≡ piece_of fine (window dual k.now i) (Solve.view s) }
{
    let Four { xs, ys } = s?;
    if !fine {
        return None;
    }
    let knots = window_of(k, i);
    Some(Piece { knots, xs, ys })
}

// What the span of t reads of the curve through points that there is room for.
// Corresponds to spline.rs: Curve::interpolate.
fn piece_through(q: &[f64], w: &mut [f64], ns: &mut [u8], c: usize, t: f64) -> Option<Piece>
    requires { (2 ≤ points_in q.now) × (points_in q.now ≤ 12) × (length q.now ≤ c) × Room c 0 (cells_for (length q.now)) w.old ns.old }
    ensures answer { view result ≡ piece_through q.now t }
    ensures doubles { w.new ≡ replicate (cells_for (length q.now) * (c + 1)) zero64
        ++ drop (cells_for (length q.now) * (c + 1)) w.old }
    ensures counts { ns.new ≡ replicate (cells_for (length q.now)) 0 ++ drop (cells_for (length q.now)) ns.old }
{
    let n = q.len() / 2;
    let zero = Dv::cst(0.0);
    let mut room = [zero; 12];
    let p = &mut room[..n];
    fit_parameters(q, p);
    let mut k = [zero; 18];
    stations::knots_by(p, &mut k);
    let u = values(&k);
    let system = System { k: &k, u: &u, p, q };
    let stored = system.fill(w, ns, c);
    let i = span::span(&u, n + 2, t);
    let s = solve_partials::solve(w, ns, n + 2, c, i - 3);
    piece_with(&k, i, all_fine(&k) & stored, s)
}

// Whether there are 2 to 12 points in so many numbers, partials for them, and room in slices of so many doubles and bytes.
fn has_room(numbers: usize, c: usize, doubles: usize, bytes: usize) -> bool
    ensures { result ≡ able numbers c doubles bytes }
{
    let n = numbers / 2;
    if n < 2 || n > 12 || c > 27 || numbers > c {
        return false;
    }
    let cells = (n + 2) * (n + 2 + 2);
    cells <= bytes && cells * (c + 1) <= doubles
}

// What the span of t reads of the curve through the points q, x and y in turn: their numbers are the variables, and each number has room for c
// partials. With n points the slices need (n + 2)(n + 4) bytes and 1 + c doubles for each, which hold zeros afterwards; the rest is unchanged. There is
// no curve where a number that the fit stores is not finite with its partials. Where there are fewer than 2 points or over 12, more numbers than c, c is
// above 27, or a slice is shorter, there is none either, and the slices stay as they are.
// Corresponds to spline.rs: curve_d.
pub fn piece_at(q: &[f64], w: &mut [f64], ns: &mut [u8], c: usize, t: f64) -> Option<Piece>
    ensures answer { view result ≡ piece_in q.now c t w.old ns.old }
    ensures doubles { w.new ≡ doubles_after q.now c w.old ns.old }
    ensures counts { ns.new ≡ counts_after q.now c w.old ns.old }
{
    if !has_room(q.len(), c, w.len(), ns.len()) {
        return None;
    }
    piece_through(q, w, ns, c, t)
}
