// The residuals of a point held on a curve, with their partials with respect to every number of the handles, of the point, and the parameter.
#![tactic(auto)]

ghost use Rattle.std.specs.Prelude.{◌≡◌, List, ◌+◌, ◌-◌, ◌*◌, ◌≤◌, ◌<◌, length, Float};
ghost use Rattle.std.specs.List.{list_all};
ghost use Rattle.std.proofs.Math.Seq.{paste};
ghost use Rattle.meaning.specs.Scalar.{plain, zero64};
ghost use Rattle.meaning.specs.Table.{at1};
ghost use Rattle.meaning.specs.Search.{listed};
ghost use Rattle.partials.specs.declared.Dv.{Dv};
ghost use Rattle.partials.specs.Dual.{part_of, fine_dv, var_dv, cst_dv, dual};
ghost use Rattle.plane.specs.View.{view};
ghost use Rattle.refusal.specs.Refusals.{first_of, verdict};
ghost use Rattle.knots.specs.Given.{given, given_list};
ghost use Rattle.refusal.proofs.Rows.{Passed};
ghost use Rattle.knots.specs.declared.Form.TheVariants.{Control, Fit};
ghost use Rattle.outcome.specs.Outcome as one;
ghost use Rattle.outcome.proofs.Doors.{Leaves};
ghost use Rattle.shape.specs.Shape.{Shape, points_in};
ghost use Rattle.shape.specs.Rules.{handle_rules};
ghost use Rattle.evaluate.specs.Point.{order_at};
ghost use Rattle.evaluate.specs.Piece.{four_of};
ghost use Rattle.solve.specs.Stored.{all_fine};
ghost use Rattle.fit_partials.specs.Variables.{variables_of};
ghost use Rattle.residual.specs.Curve.{control_shape, fit_shape, shape_of, stored_fine, span_in, three_of, residuals_on};
ghost use Rattle.residual.specs.Residual.{asked, lent, cells_for, lacks_of, asked_rules, last_rule, outcome, cleared, values_of, rows_of, residual_answer};
ghost use Rattle.residual.specs.Piece.{Read, Ready, ReadyFit, Judged};

use knots::Form;
use partials::Dv;
use plane::P2;
use refusal::Refusal;
use std::array;

// What is read of a curve for one parameter: the ends of its domain, and what a span reads.
#[derive(Clone, Copy)]
struct Piece {
    lo: f64,
    hi: f64,
    span: evaluate::Piece<Dv>,
}

// ---- control points

// Constants from the six knots that span i reads.
fn constants(u: &[f64; 70], i: usize) -> [Dv; 6]
    requires { (3 ≤ i) × (i ≤ 65) }
    ensures { result ≡ listed 0 6 (λ j. cst_dv (at1 plain u.now (i - 2 + j))) }
{
    array::from_fn(|j| Dv::cst(u[i - 2 + j]))
}

// Every second number of the handles from index at on, four of them, as variables.
fn four(q: &[f64], at: usize) -> [Dv; 4]
    requires { at + 6 < length q.now }
    ensures { result ≡ four_of dual (variables_of q.now) at 2 }
{
    [
        Dv::var(q, at),
        Dv::var(q, at + 2),
        Dv::var(q, at + 4),
        Dv::var(q, at + 6),
    ]
}

// What is read at t of the curve whose control points are the handles.
fn control_piece(q: &[f64], knots: Option<&[f64]>, t: f64) -> Piece
    requires { Passed (handle_rules Control q.now (given knots) (given_list (λ k. k.now) knots)) }
    ensures { Read (control_shape q.now (given knots.entry) (given_list (λ k. k.now) knots.entry)) t result }
{
    let n = q.len() / 2;
    let u = rooms::stored_knots(n, knots);
    let lo = u[0];
    let hi = u[n + 3];
    let i = span::span(&u, n, number::clamp(t, lo, hi));
    let at = 2 * (i - 3);
    let knots = constants(&u, i);
    let xs = four(q, at);
    let ys = four(q, at + 1);
    let span = evaluate::Piece { knots, xs, ys };
    Piece { lo, hi, span }
}

// ---- fit points

// What is read at t of the curve through the handles, which is made in the two work buffers, with c partials to a cell, if every number that is stored
// for it is finite. Its domain is 0 to 1.
fn fit_piece(q: &[f64], c: usize, t: f64, work: &mut [f64], counts: &mut [u8]) -> Option<Piece>
    requires { ReadyFit q.now c work.old counts.old }
    ensures answer { Judged (stored_fine Fit q.now) (fit_shape q.now) t result }
    ensures doubles { work.new ≡ cleared (cells_for Fit q.now * (c + 1)) zero64 work.old }
    ensures counts { counts.new ≡ cleared (cells_for Fit q.now) 0 counts.old }
{
    let lo = 0.0;
    let hi = 1.0;
    let read = fit_partials::piece_at(q, work, counts, c, number::clamp(t, lo, hi))?;
    let fit_partials::Piece { knots, xs, ys } = read;
    let span = evaluate::Piece { knots, xs, ys };
    Some(Piece { lo, hi, span })
}

// What is read at t of the curve of either form, if every number that its build stores is finite; control points need no work.
// Corresponds to spline.rs: curve_d.
fn read_curve(
    form: Form,
    q: &[f64],
    knots: Option<&[f64]>,
    c: usize,
    t: f64,
    work: &mut [f64],
    counts: &mut [u8],
) -> Option<Piece>
    requires { Ready form q.now (given knots) (given_list (λ k. k.now) knots) c work.old counts.old }
    ensures answer { Judged (stored_fine form q.now)
        (shape_of form q.now (given knots.entry) (given_list (λ k. k.now) knots.entry)) t result }
    ensures doubles { work.new ≡ cleared (cells_for form q.now * (c + 1)) zero64 work.old }
    ensures counts { counts.new ≡ cleared (cells_for form q.now) 0 counts.old }
{
    match form {
        Form::Control => Some(control_piece(q, knots, t)),
        Form::Fit => fit_piece(q, c, t, work, counts),
    }
}

// ---- the residuals

// Variable i, whose number is x: that of any list which has x at i.
fn variable(x: f64, i: usize) -> Dv
    requires { i ≤ 26 }
    ensures fact_1 { ((xs : List Float) → i < length xs → at1 plain xs i ≡ x → result ≡ var_dv xs i) }
    ensures fact_2 { result.v ≡ x }
{
    let mut g = [0.0; 27];
    g[i] = 1.0;
    Dv { v: x, g, n: i + 1 }
}

impl Piece {
    // The point at t of whatever curve the piece was read of for t.
    // Corresponds to spline.rs: Curve::eval.
    fn point(&self, t: Dv) -> P2<Dv>
        ensures { (c : Shape Dv) → Read c t.v self.now → view result ≡ order_at dual (span_in c) c t 0 0 }
    {
        if t.v < self.lo {
            return self.span.beyond(Dv::cst(self.lo), t);
        }
        if t.v > self.hi {
            return self.span.beyond(Dv::cst(self.hi), t);
        }
        self.span.inside(t)
    }

    // The residuals of the point (x, y) at t: that point less the curve's, and how far t lies past the domain.
    // Corresponds to point_on_spline.rs: PointOnSplineConstraint::eval.
    fn residuals_at(&self, x: Dv, y: Dv, t: Dv) -> [Dv; 3]
        ensures { (c : Shape Dv) → Read c t.v self.now → result ≡ three_of c (record { x = x; y = y }) t }
    {
        let curve = self.point(t);
        let held = P2 { x, y };
        let d = held - curve;
        let past = t.overshoot(self.lo, self.hi);
        [d.x, d.y, past]
    }

    // The residuals of (px, py) at t, where the numbers of the handles are the variables before these three, h of them.
    fn residuals_of(&self, h: usize, px: f64, py: f64, t: f64) -> [Dv; 3]
        requires { h ≤ 24 }
        ensures { (c : Shape Dv) (q : List Float) → length q ≡ h → Read c t self.now → result ≡ residuals_on c q px py t }
    {
        let x = variable(px, h);
        let y = variable(py, h + 1);
        let at = variable(t, h + 2);
        self.residuals_at(x, y, at)
    }
}

// ---- what is answered

// The partials of d, as many as the row has room for: +0.0 in place of a missing one.
// Corresponds to spline.rs: Dv::write_row.
fn write_row(d: &Dv, row: &mut [f64])
    requires { length row.old ≤ 27 }
    ensures { row.new ≡ listed 0 (length row.old) (part_of d.now) }
{
    let n = d.n.min(row.len());
    row[..n].copy_from_slice(&d.g[..n]);
    row[n..].fill(0.0);
}

// All three rows, of c partials.
fn write_rows(three: &[Dv; 3], c: usize, rows: &mut [f64])
    requires { (c ≤ 27) × (3 * c ≤ length rows.old) }
    ensures { rows.new ≡ paste rows.old 0 (rows_of c three.now) (3 * c) }
{
    write_row(&three[0], &mut rows[..c]);
    write_row(&three[1], &mut rows[c..2 * c]);
    write_row(&three[2], &mut rows[2 * c..3 * c]);
}

// The three values.
fn write_values(three: &[Dv; 3], residuals: &mut [f64])
    requires { 3 ≤ length residuals.old }
    ensures { residuals.new ≡ paste residuals.old 0 (values_of three.now) 3 }
{
    residuals[..3].copy_from_slice(&[three[0].v, three[1].v, three[2].v]);
}

// Whether every number of the three is finite.
fn all_fine(three: &[Dv; 3]) -> bool
    ensures { result ≡ list_all fine_dv three.now }
{
    three.iter().all(|d| d.is_fine())
}

// The answer, unless a number of it is not finite.
fn answer(three: &[Dv; 3], c: usize, residuals: &mut [f64], rows: &mut [f64]) -> Result<(), Refusal>
    requires { (c ≤ 27) × (3 ≤ length residuals.old) × (3 * c ≤ length rows.old) }
    ensures leaves { Leaves (last_rule (all_fine dual three.now)) (values_of three.now) 3 residuals.old
        (one.outcome (verdict result) residuals.new) }
    ensures leaves_2 { Leaves (last_rule (all_fine dual three.now)) (rows_of c three.now) (3 * c) rows.old
        (one.outcome (verdict result) rows.new) }
{
    if !all_fine(three) {
        return Err(Refusal::WildOutcome);
    }
    write_values(three, residuals);
    write_rows(three, c, rows);
    Ok(())
}

// ---- the rules

// Why these handles, this point and this parameter are refused by the rules 1 to 12, if they are.
fn check(
    form: Form,
    q: &[f64],
    knots: Option<&[f64]>,
    px: f64,
    py: f64,
    t: f64,
) -> Result<(), Refusal>
    ensures { verdict result
        ≡ first_of (asked_rules (asked form q.now (given knots.entry) (given_list (λ k. k.now) knots.entry) px py t)) }
{
    if q.len() % 2 != 0 {
        return Err(Refusal::OddCoordinates);
    }
    if q.len() / 2 > 12 {
        return Err(Refusal::ManyHandles);
    }
    shape::check_handles(form, q, knots)?;
    if !number::is_finite(px) || !number::is_finite(py) {
        return Err(Refusal::WildCoordinate);
    }
    if !number::is_finite(t) {
        return Err(Refusal::WildParameter);
    }
    Ok(())
}

// How many cells of work the handles need.
fn cells(form: Form, q: &[f64]) -> usize
    requires { points_in q.now ≤ 12 }
    ensures fact_1 { result ≡ cells_for form q.now }
    ensures fact_2 { result ≤ 224 }
{
    match form {
        Form::Control => 0,
        Form::Fit => (q.len() / 2 + 2) * (q.len() / 2 + 2 + 2),
    }
}

// Whether one of the lent slices is short, of which these are the lengths, for work of so many cells and c partials.
fn lacks(cells: usize, c: usize, doubles: usize, bytes: usize, three: usize, rows: usize) -> bool
    requires { (cells ≤ 224) × (c ≤ 28) }
    ensures { result ≡ lacks_of cells c doubles bytes three rows }
{
    doubles < cells * (c + 1) || bytes < cells || three < 3 || rows < 3 * c
}

// ---- the whole call

// The residuals of the point (px, py), held on the curve of these handles at t, and a row of their partials for each: with n handles c = 2n + 3 partials,
// with respect to the handles' numbers in order, px, py and t. Fit points need (n + 2)(n + 4) bytes of counts and c + 1 doubles of work for each; control
// points need neither.
// Corresponds to point_on_spline.rs: PointOnSplineConstraint::eval.
pub fn residual(
    form: Form,
    handles: &[f64],
    knots: Option<&[f64]>,
    px: f64,
    py: f64,
    t: f64,
    work: &mut [f64],
    counts: &mut [u8],
    residuals: &mut [f64],
    rows: &mut [f64],
) -> Result<(), Refusal>
    ensures { outcome (verdict result) work.new counts.new residuals.new rows.new
        ≡ residual_answer (asked form handles.now (given knots.entry) (given_list (λ k. k.now) knots.entry) px py t)
        (lent work.old counts.old residuals.old rows.old) }
{
    check(form, handles, knots, px, py, t)?;
    let c = handles.len() + 3;
    let size = cells(form, handles);
    if lacks(
        size,
        c,
        work.len(),
        counts.len(),
        residuals.len(),
        rows.len(),
    ) {
        return Err(Refusal::ShortSlice);
    }
    let Some(p) = read_curve(form, handles, knots, c, t, work, counts) else {
        return Err(Refusal::WildOutcome);
    };
    let three = p.residuals_of(handles.len(), px, py, t);
    answer(&three, c, residuals, rows)
}
