// The library for C and Rust to link: the same proved functions, over numbers and slices. include/threshdune.h declares the curves,
// include/threshdune_parts.h the rest. What C is told of a refusal is its number.
#![tactic(auto)]

ghost use Rattle.std.specs.Prelude.{◌≡◌, false, []};
ghost use Rattle.std.specs.Float.Ieee.Scale.{finite};
ghost use Rattle.meaning.specs.Root.{root_of};
ghost use Rattle.meaning.specs.Number.{size_of, at_least, clamp_of};
ghost use Rattle.meaning.specs.Scalar.{plain};
ghost use Rattle.refusal.specs.Refusals.{refusal};
ghost use Rattle.partials.specs.Dual.{dual, var_dv, add_dv, sub_dv, mul_dv, div_dv, neg_dv, root_dv, overshoot_dv, fine_dv};
ghost use Rattle.plane.specs.Vector.{add_v, sub_v, scale_v, dot_v, cross_v, norm_v, unit_v, rot90_v};
ghost use Rattle.basis.specs.Basis.{derivatives_of};
ghost use Rattle.knots.specs.declared.Form.TheVariants.{Control, Fit};
ghost use Rattle.outcome.specs.Outcome.{outcome};
ghost use Rattle.shape.specs.Offered.{in_slices};
ghost use Rattle.build.specs.Build.{sliced, built_into};
ghost use Rattle.hull.specs.Promise.{InItsHull, NeverRefused};
ghost use Rattle.point.specs.Point.{point_answer, tangent_answer};
ghost use Rattle.many.specs.Many.{many};
ghost use Rattle.points.specs.Points.{points_answer, EachInItsHull, NoneRefused};
ghost use Rattle.measure.specs.Measure.{length_answer, domain_answer};
ghost use Rattle.samples.specs.Samples.{counted, samples_answer};
ghost use Rattle.distance_rule.specs.Distance.{distance_of};
ghost use Rattle.closest.specs.Search.{closest_answer};
ghost use Rattle.closest.specs.Many.{closest_many};
ghost use Rattle.residual.specs.Residual as held;
ghost use Rattle.c_values.specs.Crossing.{read_dv, read_v, read_six, AnsweredD, AnsweredV, AnsweredP, AnsweredB};
ghost use Rattle.c_curves.specs.Curves.{is_given, form_of, read_curve, as_record, behind, handed};
ghost use Rattle.moving.specs.Moving.{moved_out, moved_into};

use knots::Form;
use offer::Slices;
use partials::Dv;
use plane::P2;

// ---- curves

// The curve of these control points, over the knots where given is not 0, else over uniform ones.
#[unsafe(no_mangle)]
pub extern "C" fn threshdune_build_control(
    coords: &[f64],
    given: u64,
    knots: &[f64],
    control: &mut [f64],
    knots_out: &mut [f64],
) -> u64
    ensures { sliced (refusal result) control.new knots_out.new []
        ≡ built_into Control coords.now (is_given given) knots.now [] control.old knots_out.old }
{
    // Control points need no work.
    refusal::number_of(build::build_slices(
        Form::Control,
        coords,
        c_curves::given_knots(given, knots),
        &mut [],
        control,
        knots_out,
    ))
}

// The curve through these fit points, made in the lent work buffer.
#[unsafe(no_mangle)]
pub extern "C" fn threshdune_build_fit(
    coords: &[f64],
    work: &mut [f64],
    control: &mut [f64],
    knots_out: &mut [f64],
) -> u64
    ensures { sliced (refusal result) control.new knots_out.new work.new
        ≡ built_into Fit coords.now false [] work.old control.old knots_out.old }
{
    refusal::number_of(build::build_slices(Form::Fit, coords, None, work, control, knots_out))
}

// The point at t and its derivatives up to the order.
#[unsafe(no_mangle)]
pub extern "C" fn threshdune_evaluate(
    coords: &[f64],
    knots: &[f64],
    t: f64,
    order: u64,
    out: &mut [f64],
) -> u64
    ensures answer { outcome (refusal result) out.new
        ≡ point_answer (in_slices coords.now knots.now) t order out.old }
    ensures hull { InItsHull (in_slices coords.now knots.now) t (refusal result) out.new }
    ensures never { NeverRefused (in_slices coords.now knots.now) t order out.old (refusal result) }
{
    let curve = Slices { coords, knots };
    refusal::number_of(point::evaluate(&curve, t, order as usize, out))
}

// The points at the parameters ts with their derivatives up to the order, each in its place, and the refusal of each.
#[unsafe(no_mangle)]
pub extern "C" fn threshdune_evaluate_many(
    coords: &[f64],
    knots: &[f64],
    ts: &[f64],
    order: u64,
    out: &mut [f64],
    refusals: &mut [u64],
) -> u64
    ensures answer { many (refusal result) out.new refusals.new
        ≡ points_answer (in_slices coords.now knots.now) ts.now order out.old refusals.old }
    ensures hull { EachInItsHull (in_slices coords.now knots.now) ts.now order (refusal result)
        out.new refusals.new }
    ensures never { NoneRefused (in_slices coords.now knots.now) ts.now order out.old
        (refusal result) refusals.new }
{
    let curve = Slices { coords, knots };
    refusal::number_of(points::evaluate_many(&curve, ts, order as usize, out, refusals))
}

// The point at t and the unit tangent.
#[unsafe(no_mangle)]
pub extern "C" fn threshdune_point_tangent(
    coords: &[f64],
    knots: &[f64],
    t: f64,
    out: &mut [f64],
) -> u64
    ensures answer { outcome (refusal result) out.new
        ≡ tangent_answer (in_slices coords.now knots.now) t out.old }
    ensures hull { InItsHull (in_slices coords.now knots.now) t (refusal result) out.new }
{
    refusal::number_of(point::point_tangent(&Slices { coords, knots }, t, out))
}

// The length of the control polygon.
#[unsafe(no_mangle)]
pub extern "C" fn threshdune_length(coords: &[f64], knots: &[f64], length: &mut f64) -> u64
    ensures { behind (refusal result) length.new
        ≡ handed (length_answer (in_slices coords.now knots.now)) 0 length.old }
{
    let found = measure::length(&Slices { coords, knots });
    refusal::number_of(c_curves::hand_number(found, length))
}

// The first knot and the last.
#[unsafe(no_mangle)]
pub extern "C" fn threshdune_domain(
    coords: &[f64],
    knots: &[f64],
    from: &mut f64,
    to: &mut f64,
) -> u64
    ensures from_after { behind (refusal result) from.new
        ≡ handed (domain_answer (in_slices coords.now knots.now)) 0 from.old }
    ensures to_after { behind (refusal result) to.new
        ≡ handed (domain_answer (in_slices coords.now knots.now)) 1 to.old }
{
    let found = measure::domain(&Slices { coords, knots });
    refusal::number_of(c_curves::hand_interval(found, from, to))
}

// per_span parameters from the start of each rising knot pair on, then the domain's end.
#[unsafe(no_mangle)]
pub extern "C" fn threshdune_samples(
    coords: &[f64],
    knots: &[f64],
    per_span: u64,
    out: &mut [f64],
    count: &mut u64,
) -> u64
    ensures { counted (refusal result) out.new count.new
        ≡ samples_answer (in_slices coords.now knots.now) per_span out.old count.old }
{
    let found = samples::samples(&Slices { coords, knots }, per_span as usize, out);
    refusal::number_of(c_curves::hand_count(found, count))
}

// The parameter of the curve's point that lies nearest to (px, py).
#[unsafe(no_mangle)]
pub extern "C" fn threshdune_closest(
    coords: &[f64],
    knots: &[f64],
    px: f64,
    py: f64,
    t: &mut f64,
) -> u64
    ensures { behind (refusal result) t.new
        ≡ handed (closest_answer (in_slices coords.now knots.now) (record { x = px; y = py })) 0 t.old }
{
    let found = closest::closest(&Slices { coords, knots }, px, py);
    refusal::number_of(c_curves::hand_number(found, t))
}

// The parameters of the curve's points that lie nearest to these points, x and y in turn, each in its place, and the refusal of each.
#[unsafe(no_mangle)]
pub extern "C" fn threshdune_closest_many(
    coords: &[f64],
    knots: &[f64],
    points: &[f64],
    out: &mut [f64],
    refusals: &mut [u64],
) -> u64
    ensures { many (refusal result) out.new refusals.new
        ≡ closest_many (in_slices coords.now knots.now) points.now out.old refusals.old }
{
    let curve = Slices { coords, knots };
    refusal::number_of(closest::closest_many(&curve, points, out, refusals))
}

// The residuals of the point (px, py), held on the curve of these handles at t, with a row of their partials for each. The handles are fit points where
// fit is not 0, else control points, over the knots where given is not 0.
#[unsafe(no_mangle)]
pub extern "C" fn threshdune_residual(
    handles: &[f64],
    fit: u64,
    given: u64,
    knots: &[f64],
    px: f64,
    py: f64,
    t: f64,
    work: &mut [f64],
    counts: &mut [u8],
    residuals: &mut [f64],
    rows: &mut [f64],
) -> u64
    ensures { held.outcome (refusal result) work.new counts.new residuals.new rows.new
        ≡ held.residual_answer
        (held.asked (form_of fit) handles.now (is_given given) knots.now px py t)
        (held.lent work.old counts.old residuals.old rows.old) }
{
    refusal::number_of(residual::residual(
        c_curves::form_of(fit),
        handles,
        c_curves::given_knots(given, knots),
        px,
        py,
        t,
        work,
        counts,
        residuals,
        rows,
    ))
}

// ---- numbers

// The double nearest to the root of x; +0.0 at or below 0; infinity and a NaN stay.
#[unsafe(no_mangle)]
pub extern "C" fn threshdune_root(x: f64) -> f64
    ensures { result ≡ root_of x }
{
    root::root(x)
}

// Whether x is neither a NaN nor an infinity.
#[unsafe(no_mangle)]
pub extern "C" fn threshdune_is_finite(x: f64) -> bool
    ensures { result ≡ finite x }
{
    number::is_finite(x)
}

// x without its sign.
#[unsafe(no_mangle)]
pub extern "C" fn threshdune_size(x: f64) -> f64
    ensures { result ≡ size_of x }
{
    number::size(x)
}

// Whether the size of x is that of y or stands after it in totalOrder.
#[unsafe(no_mangle)]
pub extern "C" fn threshdune_at_least(x: f64, y: f64) -> bool
    ensures { result ≡ at_least x y }
{
    number::at_least(x, y)
}

// x, or the end of lo to hi that it lies past.
#[unsafe(no_mangle)]
pub extern "C" fn threshdune_clamp(x: f64, lo: f64, hi: f64) -> f64
    ensures { result ≡ clamp_of x lo hi }
{
    number::clamp(x, lo, hi)
}

// ---- values with partials

// Variable i of xs.
#[unsafe(no_mangle)]
pub extern "C" fn threshdune_partials_var(
    xs: &[f64],
    i: u64,
    out: &mut [f64],
    count: &mut u64,
) -> u64
    ensures { AnsweredD (var_dv xs.now i) out.old count.old result out.new count.new }
{
    c_values::answer(Dv::var(xs, i as usize), out, count)
}

// a + b.
#[unsafe(no_mangle)]
pub extern "C" fn threshdune_partials_add(
    a: &[f64],
    a_count: u64,
    b: &[f64],
    b_count: u64,
    out: &mut [f64],
    count: &mut u64,
) -> u64
    ensures { AnsweredD (add_dv (read_dv a.now 0 a_count) (read_dv b.now 0 b_count))
        out.old count.old result out.new count.new }
{
    let x = c_values::read_value(a, a_count as usize);
    let y = c_values::read_value(b, b_count as usize);
    c_values::answer(x + y, out, count)
}

// a - b.
#[unsafe(no_mangle)]
pub extern "C" fn threshdune_partials_sub(
    a: &[f64],
    a_count: u64,
    b: &[f64],
    b_count: u64,
    out: &mut [f64],
    count: &mut u64,
) -> u64
    ensures { AnsweredD (sub_dv (read_dv a.now 0 a_count) (read_dv b.now 0 b_count))
        out.old count.old result out.new count.new }
{
    let x = c_values::read_value(a, a_count as usize);
    let y = c_values::read_value(b, b_count as usize);
    c_values::answer(x - y, out, count)
}

// a * b.
#[unsafe(no_mangle)]
pub extern "C" fn threshdune_partials_mul(
    a: &[f64],
    a_count: u64,
    b: &[f64],
    b_count: u64,
    out: &mut [f64],
    count: &mut u64,
) -> u64
    ensures { AnsweredD (mul_dv (read_dv a.now 0 a_count) (read_dv b.now 0 b_count))
        out.old count.old result out.new count.new }
{
    let x = c_values::read_value(a, a_count as usize);
    let y = c_values::read_value(b, b_count as usize);
    c_values::answer(x * y, out, count)
}

// a / b.
#[unsafe(no_mangle)]
pub extern "C" fn threshdune_partials_div(
    a: &[f64],
    a_count: u64,
    b: &[f64],
    b_count: u64,
    out: &mut [f64],
    count: &mut u64,
) -> u64
    ensures { AnsweredD (div_dv (read_dv a.now 0 a_count) (read_dv b.now 0 b_count))
        out.old count.old result out.new count.new }
{
    let x = c_values::read_value(a, a_count as usize);
    let y = c_values::read_value(b, b_count as usize);
    c_values::answer(x / y, out, count)
}

// -a.
#[unsafe(no_mangle)]
pub extern "C" fn threshdune_partials_neg(
    a: &[f64],
    a_count: u64,
    out: &mut [f64],
    count: &mut u64,
) -> u64
    ensures { AnsweredD (neg_dv (read_dv a.now 0 a_count)) out.old count.old result
        out.new count.new }
{
    let x = c_values::read_value(a, a_count as usize);
    c_values::answer(-x, out, count)
}

// The root of a.
#[unsafe(no_mangle)]
pub extern "C" fn threshdune_partials_root(
    a: &[f64],
    a_count: u64,
    out: &mut [f64],
    count: &mut u64,
) -> u64
    ensures { AnsweredD (root_dv (read_dv a.now 0 a_count)) out.old count.old result
        out.new count.new }
{
    let x = c_values::read_value(a, a_count as usize);
    c_values::answer(x.root(), out, count)
}

// How far t lies outside lo to hi.
#[unsafe(no_mangle)]
pub extern "C" fn threshdune_partials_overshoot(
    t: &[f64],
    t_count: u64,
    lo: f64,
    hi: f64,
    out: &mut [f64],
    count: &mut u64,
) -> u64
    ensures { AnsweredD (overshoot_dv (read_dv t.now 0 t_count) lo hi)
        out.old count.old result out.new count.new }
{
    let x = c_values::read_value(t, t_count as usize);
    c_values::answer(x.overshoot(lo, hi), out, count)
}

// Whether the value and each counted partial is finite.
#[unsafe(no_mangle)]
pub extern "C" fn threshdune_partials_is_fine(a: &[f64], a_count: u64) -> bool
    ensures { result ≡ fine_dv (read_dv a.now 0 a_count) }
{
    let x = c_values::read_value(a, a_count as usize);
    x.is_fine()
}

// ---- vectors

// a + b.
#[unsafe(no_mangle)]
pub extern "C" fn threshdune_plane_add(ax: f64, ay: f64, bx: f64, by: f64, out: &mut [f64]) -> u64
    ensures { AnsweredP (add_v plain (record { x = ax; y = ay }) (record { x = bx; y = by })) out.old result out.new }
{
    let a = P2 { x: ax, y: ay };
    let b = P2 { x: bx, y: by };
    c_values::answer_pair(a + b, out)
}

// a - b.
#[unsafe(no_mangle)]
pub extern "C" fn threshdune_plane_sub(ax: f64, ay: f64, bx: f64, by: f64, out: &mut [f64]) -> u64
    ensures { AnsweredP (sub_v plain (record { x = ax; y = ay }) (record { x = bx; y = by })) out.old result out.new }
{
    let a = P2 { x: ax, y: ay };
    let b = P2 { x: bx, y: by };
    c_values::answer_pair(a - b, out)
}

// k times a.
#[unsafe(no_mangle)]
pub extern "C" fn threshdune_plane_scale(ax: f64, ay: f64, k: f64, out: &mut [f64]) -> u64
    ensures { AnsweredP (scale_v plain (record { x = ax; y = ay }) k) out.old result out.new }
{
    let a = P2 { x: ax, y: ay };
    c_values::answer_pair(a.scale(k), out)
}

// The direction of a.
#[unsafe(no_mangle)]
pub extern "C" fn threshdune_plane_unit(ax: f64, ay: f64, out: &mut [f64]) -> u64
    ensures { AnsweredP (unit_v plain (record { x = ax; y = ay })) out.old result out.new }
{
    let a = P2 { x: ax, y: ay };
    c_values::answer_pair(a.unit(), out)
}

// a turned by 90 degrees counter-clockwise.
#[unsafe(no_mangle)]
pub extern "C" fn threshdune_plane_rot90(ax: f64, ay: f64, out: &mut [f64]) -> u64
    ensures { AnsweredP (rot90_v plain (record { x = ax; y = ay })) out.old result out.new }
{
    let a = P2 { x: ax, y: ay };
    c_values::answer_pair(a.rot90(), out)
}

// The inner product of a and b.
#[unsafe(no_mangle)]
pub extern "C" fn threshdune_plane_dot(ax: f64, ay: f64, bx: f64, by: f64) -> f64
    ensures { result ≡ dot_v plain (record { x = ax; y = ay }) (record { x = bx; y = by }) }
{
    let a = P2 { x: ax, y: ay };
    let b = P2 { x: bx, y: by };
    a.dot(b)
}

// The outer product of a and b.
#[unsafe(no_mangle)]
pub extern "C" fn threshdune_plane_cross(ax: f64, ay: f64, bx: f64, by: f64) -> f64
    ensures { result ≡ cross_v plain (record { x = ax; y = ay }) (record { x = bx; y = by }) }
{
    let a = P2 { x: ax, y: ay };
    let b = P2 { x: bx, y: by };
    a.cross(b)
}

// The length of a.
#[unsafe(no_mangle)]
pub extern "C" fn threshdune_plane_norm(ax: f64, ay: f64) -> f64
    ensures { result ≡ norm_v plain (record { x = ax; y = ay }) }
{
    let a = P2 { x: ax, y: ay };
    a.norm()
}

// The distance of a and b.
#[unsafe(no_mangle)]
pub extern "C" fn threshdune_distance(ax: f64, ay: f64, bx: f64, by: f64) -> f64
    ensures { result ≡ distance_of (record { x = ax; y = ay }) (record { x = bx; y = by }) }
{
    let a = P2 { x: ax, y: ay };
    let b = P2 { x: bx, y: by };
    distance::distance(a, b)
}

// ---- vectors with partials

// a + b.
#[unsafe(no_mangle)]
pub extern "C" fn threshdune_plane_partials_add(
    a: &[f64],
    a_counts: &[u64],
    b: &[f64],
    b_counts: &[u64],
    out: &mut [f64],
    counts: &mut [u64],
) -> u64
    ensures { AnsweredV (add_v dual (read_v a.now a_counts.now) (read_v b.now b_counts.now))
        out.old counts.old result out.new counts.new }
{
    let x = c_values::read_vector(a, a_counts);
    let y = c_values::read_vector(b, b_counts);
    c_values::answer_vector(x + y, out, counts)
}

// a - b.
#[unsafe(no_mangle)]
pub extern "C" fn threshdune_plane_partials_sub(
    a: &[f64],
    a_counts: &[u64],
    b: &[f64],
    b_counts: &[u64],
    out: &mut [f64],
    counts: &mut [u64],
) -> u64
    ensures { AnsweredV (sub_v dual (read_v a.now a_counts.now) (read_v b.now b_counts.now))
        out.old counts.old result out.new counts.new }
{
    let x = c_values::read_vector(a, a_counts);
    let y = c_values::read_vector(b, b_counts);
    c_values::answer_vector(x - y, out, counts)
}

// k times a.
#[unsafe(no_mangle)]
pub extern "C" fn threshdune_plane_partials_scale(
    a: &[f64],
    a_counts: &[u64],
    k: &[f64],
    k_count: u64,
    out: &mut [f64],
    counts: &mut [u64],
) -> u64
    ensures { AnsweredV (scale_v dual (read_v a.now a_counts.now) (read_dv k.now 0 k_count))
        out.old counts.old result out.new counts.new }
{
    let x = c_values::read_vector(a, a_counts);
    let y = c_values::read_value(k, k_count as usize);
    c_values::answer_vector(x.scale(y), out, counts)
}

// The direction of a.
#[unsafe(no_mangle)]
pub extern "C" fn threshdune_plane_partials_unit(
    a: &[f64],
    a_counts: &[u64],
    out: &mut [f64],
    counts: &mut [u64],
) -> u64
    ensures { AnsweredV (unit_v dual (read_v a.now a_counts.now))
        out.old counts.old result out.new counts.new }
{
    let x = c_values::read_vector(a, a_counts);
    c_values::answer_vector(x.unit(), out, counts)
}

// a turned by 90 degrees counter-clockwise.
#[unsafe(no_mangle)]
pub extern "C" fn threshdune_plane_partials_rot90(
    a: &[f64],
    a_counts: &[u64],
    out: &mut [f64],
    counts: &mut [u64],
) -> u64
    ensures { AnsweredV (rot90_v dual (read_v a.now a_counts.now))
        out.old counts.old result out.new counts.new }
{
    let x = c_values::read_vector(a, a_counts);
    c_values::answer_vector(x.rot90(), out, counts)
}

// The inner product of a and b.
#[unsafe(no_mangle)]
pub extern "C" fn threshdune_plane_partials_dot(
    a: &[f64],
    a_counts: &[u64],
    b: &[f64],
    b_counts: &[u64],
    out: &mut [f64],
    count: &mut u64,
) -> u64
    ensures { AnsweredD (dot_v dual (read_v a.now a_counts.now) (read_v b.now b_counts.now))
        out.old count.old result out.new count.new }
{
    let x = c_values::read_vector(a, a_counts);
    let y = c_values::read_vector(b, b_counts);
    c_values::answer(x.dot(y), out, count)
}

// The outer product of a and b.
#[unsafe(no_mangle)]
pub extern "C" fn threshdune_plane_partials_cross(
    a: &[f64],
    a_counts: &[u64],
    b: &[f64],
    b_counts: &[u64],
    out: &mut [f64],
    count: &mut u64,
) -> u64
    ensures { AnsweredD (cross_v dual (read_v a.now a_counts.now) (read_v b.now b_counts.now))
        out.old count.old result out.new count.new }
{
    let x = c_values::read_vector(a, a_counts);
    let y = c_values::read_vector(b, b_counts);
    c_values::answer(x.cross(y), out, count)
}

// The length of a.
#[unsafe(no_mangle)]
pub extern "C" fn threshdune_plane_partials_norm(
    a: &[f64],
    a_counts: &[u64],
    out: &mut [f64],
    count: &mut u64,
) -> u64
    ensures { AnsweredD (norm_v dual (read_v a.now a_counts.now))
        out.old count.old result out.new count.new }
{
    let x = c_values::read_vector(a, a_counts);
    c_values::answer(x.norm(), out, count)
}

// ---- the basis with partials

// The four basis functions of the span whose six knots are w, at t, with their derivatives up to the order.
#[unsafe(no_mangle)]
pub extern "C" fn threshdune_partials_basis(
    w: &[f64],
    w_counts: &[u64],
    t: &[f64],
    t_count: u64,
    order: u64,
    out: &mut [f64],
    counts: &mut [u64],
) -> u64
    ensures { AnsweredB (derivatives_of dual (read_six w.now w_counts.now) 2 (read_dv t.now 0 t_count) order)
        out.old counts.old result out.new counts.new }
{
    let six = c_values::read_six(w, w_counts);
    let x = c_values::read_value(t, t_count as usize);
    let rows = derivatives::basis(&six, x, order as usize);
    c_values::answer_rows(rows, out, counts)
}

// ---- curves as records: two counts, the length and three rooms, checked again like any other

// The point at t and its derivatives up to the order.
#[unsafe(no_mangle)]
pub extern "C" fn threshdune_record_evaluate(
    points: u64,
    knot_count: u64,
    length: f64,
    xs: &[f64],
    ys: &[f64],
    knots: &[f64],
    t: f64,
    order: u64,
    out: &mut [f64],
) -> u64
    ensures answer { outcome (refusal result) out.new
        ≡ point_answer (as_record points knot_count length xs.now ys.now knots.now) t order out.old }
    ensures hull { InItsHull (as_record points knot_count length xs.now ys.now knots.now) t (refusal result)
        out.new }
    ensures never { NeverRefused (as_record points knot_count length xs.now ys.now knots.now)
        t order out.old (refusal result) }
{
    let c = c_curves::read_curve(points, knot_count, length, xs, ys, knots);
    refusal::number_of(point::evaluate(&c, t, order as usize, out))
}

// The points at the parameters ts with their derivatives up to the order, each in its place, and the refusal of each.
#[unsafe(no_mangle)]
pub extern "C" fn threshdune_record_evaluate_many(
    points: u64,
    knot_count: u64,
    length: f64,
    xs: &[f64],
    ys: &[f64],
    knots: &[f64],
    ts: &[f64],
    order: u64,
    out: &mut [f64],
    refusals: &mut [u64],
) -> u64
    ensures answer { many (refusal result) out.new refusals.new
        ≡ points_answer (as_record points knot_count length xs.now ys.now knots.now) ts.now order
        out.old refusals.old }
    ensures hull { EachInItsHull (as_record points knot_count length xs.now ys.now knots.now) ts.now
        order (refusal result) out.new refusals.new }
    ensures never { NoneRefused (as_record points knot_count length xs.now ys.now knots.now) ts.now
        order out.old (refusal result) refusals.new }
{
    let c = c_curves::read_curve(points, knot_count, length, xs, ys, knots);
    refusal::number_of(points::evaluate_many(&c, ts, order as usize, out, refusals))
}

// The point at t and the unit tangent.
#[unsafe(no_mangle)]
pub extern "C" fn threshdune_record_point_tangent(
    points: u64,
    knot_count: u64,
    length: f64,
    xs: &[f64],
    ys: &[f64],
    knots: &[f64],
    t: f64,
    out: &mut [f64],
) -> u64
    ensures answer { outcome (refusal result) out.new
        ≡ tangent_answer (as_record points knot_count length xs.now ys.now knots.now) t out.old }
    ensures hull { InItsHull (as_record points knot_count length xs.now ys.now knots.now) t (refusal result)
        out.new }
{
    let c = c_curves::read_curve(points, knot_count, length, xs, ys, knots);
    refusal::number_of(point::point_tangent(&c, t, out))
}

// The length of the control polygon.
#[unsafe(no_mangle)]
pub extern "C" fn threshdune_record_length(
    points: u64,
    knot_count: u64,
    length: f64,
    xs: &[f64],
    ys: &[f64],
    knots: &[f64],
    answer: &mut f64,
) -> u64
    ensures { behind (refusal result) answer.new
        ≡ handed (length_answer (as_record points knot_count length xs.now ys.now knots.now)) 0 answer.old }
{
    let c = c_curves::read_curve(points, knot_count, length, xs, ys, knots);
    refusal::number_of(c_curves::hand_number(measure::length(&c), answer))
}

// The first knot and the last.
#[unsafe(no_mangle)]
pub extern "C" fn threshdune_record_domain(
    points: u64,
    knot_count: u64,
    length: f64,
    xs: &[f64],
    ys: &[f64],
    knots: &[f64],
    from: &mut f64,
    to: &mut f64,
) -> u64
    ensures from_after { behind (refusal result) from.new
        ≡ handed (domain_answer (as_record points knot_count length xs.now ys.now knots.now)) 0 from.old }
    ensures to_after { behind (refusal result) to.new
        ≡ handed (domain_answer (as_record points knot_count length xs.now ys.now knots.now)) 1 to.old }
{
    let c = c_curves::read_curve(points, knot_count, length, xs, ys, knots);
    refusal::number_of(c_curves::hand_interval(measure::domain(&c), from, to))
}

// per_span parameters from the start of each rising knot pair on, then the domain's end.
#[unsafe(no_mangle)]
pub extern "C" fn threshdune_record_samples(
    points: u64,
    knot_count: u64,
    length: f64,
    xs: &[f64],
    ys: &[f64],
    knots: &[f64],
    per_span: u64,
    out: &mut [f64],
    count: &mut u64,
) -> u64
    ensures { counted (refusal result) out.new count.new
        ≡ samples_answer (as_record points knot_count length xs.now ys.now knots.now)
        per_span out.old count.old }
{
    let c = c_curves::read_curve(points, knot_count, length, xs, ys, knots);
    let found = samples::samples(&c, per_span as usize, out);
    refusal::number_of(c_curves::hand_count(found, count))
}

// The parameter of the curve's point that lies nearest to (px, py).
#[unsafe(no_mangle)]
pub extern "C" fn threshdune_record_closest(
    points: u64,
    knot_count: u64,
    length: f64,
    xs: &[f64],
    ys: &[f64],
    knots: &[f64],
    px: f64,
    py: f64,
    t: &mut f64,
) -> u64
    ensures { behind (refusal result) t.new
        ≡ handed (closest_answer (as_record points knot_count length xs.now ys.now knots.now)
        (record { x = px; y = py })) 0 t.old }
{
    let c = c_curves::read_curve(points, knot_count, length, xs, ys, knots);
    refusal::number_of(c_curves::hand_number(closest::closest(&c, px, py), t))
}

// The parameters of the curve's points that lie nearest to these marks, x and y in turn, each in its place, and the refusal of each.
#[unsafe(no_mangle)]
pub extern "C" fn threshdune_record_closest_many(
    points: u64,
    knot_count: u64,
    length: f64,
    xs: &[f64],
    ys: &[f64],
    knots: &[f64],
    marks: &[f64],
    out: &mut [f64],
    refusals: &mut [u64],
) -> u64
    ensures { many (refusal result) out.new refusals.new
        ≡ closest_many (as_record points knot_count length xs.now ys.now knots.now) marks.now
        out.old refusals.old }
{
    let c = c_curves::read_curve(points, knot_count, length, xs, ys, knots);
    refusal::number_of(closest::closest_many(&c, marks, out, refusals))
}

// The record with the control point of this index at (x, y): its coordinates, x and y apart, and its length.
#[unsafe(no_mangle)]
pub extern "C" fn threshdune_record_move(
    points: u64,
    knot_count: u64,
    length: f64,
    xs: &[f64],
    ys: &[f64],
    knots: &[f64],
    index: u64,
    x: f64,
    y: f64,
    xs_out: &mut [f64],
    ys_out: &mut [f64],
    length_out: &mut f64,
) -> u64
    ensures { moved_out (refusal result) xs_out.new ys_out.new length_out.new
        ≡ moved_into (read_curve points knot_count length xs.now ys.now knots.now) index x y
        xs_out.old ys_out.old length_out.old }
{
    let c = c_curves::read_curve(points, knot_count, length, xs, ys, knots);
    let moved = moving::move_into(&c, index as usize, x, y, xs_out, ys_out, length_out);
    refusal::number_of(moved)
}
