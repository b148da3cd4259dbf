// The closest parameter: the nearest of many samples, made better by Newton's rounds.
#![tactic(auto)]

ghost use Rattle.std.specs.Prelude.{◌≡◌, ℕ, ◌+◌, ◌<◌, length, get_or, set, take};
ghost use Rattle.meaning.specs.Scalar.{plain};
ghost use Rattle.meaning.specs.Table.{at1};
ghost use Rattle.meaning.specs.Search.{listed};
ghost use Rattle.refusal.specs.Refusals.{verdict};
ghost use Rattle.knots.proofs.Accepted.{Accepted};
ghost use Rattle.plane.specs.View.{view};
ghost use Rattle.outcome.specs.Told.{told};
ghost use Rattle.shape.specs.Shape.{points_in};
ghost use Rattle.shape.specs.Spline.{shape_of, trusted_spline};
ghost use Rattle.samples.specs.Samples.{sample_at, pair_samples};
ghost use Rattle.closest.specs.Search.{slope_at, round_of, newton_from, closest_answer};
ghost use Rattle.closest.specs.Rounds.{progress};
ghost use Rattle.many.specs.Many.{many};
ghost use Rattle.many.proofs.Asked.{Asked};
ghost use Rattle.closest.specs.Many.{Room, each_found, closest_many};
ghost use Rattle.closest.specs.Sampling.{through, sampled, best_sample};

use offer::Offer;
use plane::P2;
use refusal::Refusal;
use shape::Spline;

// So many rounds of Newton's may follow.
const ROUNDS: usize = 30;

// The nearest sample so far, its distance, the square from which on no distance is less, and whether every distance so far is finite.
// Stays: the flag is a field. An `Option` would be opened and made again at each of a thousand samples, and no test would go.
#[derive(Clone, Copy)]
struct Best {
    t: f64,
    limit: f64,
    d: f64,
    fine: bool,
}

// (C - p)·C' and its derivative.
#[derive(Clone, Copy)]
struct Slope {
    f: f64,
    df: f64,
}

// What a round of Newton's leaves: the last parameter, or one that another round may follow.
#[derive(Clone, Copy)]
enum Round {
    Last(f64),
    On(f64),
}

// A search for the point of an accepted curve that lies nearest to p.
#[derive(Clone, Copy)]
struct Search<'a> {
    curve: Spline<'a>,
    p: P2<f64>,
    ghost accepted: { Accepted (take (curve.n + 4) curve.knots.now) curve.n },
}

impl Search<'_> {
    // ---- the samples

    // The nearest, with the sample at t, whose span is i or another. Only a smaller distance takes its place: of equal ones the first stays. A finite
    // square from the limit on has a finite distance that is not smaller, so no root is taken of it.
    fn sample(&self, t: f64, i: usize, b: Best) -> Best
        ensures { result ≡ sampled (shape_of self.now.curve) (view self.now.p) b t }
    {
        let c = evaluate::point_near(self.curve, t, i);
        let square = distance::square(c, self.p);
        let infinite = f64::from_bits(0x7ff0_0000_0000_0000);
        if number::both(b.limit <= square, square < infinite) {
            // field by field: a copy of the whole struct takes longer
            return Best {
                t: b.t,
                limit: b.limit,
                d: b.d,
                fine: b.fine,
            };
        }
        let d = distance::distance(c, self.p);
        let fine = number::both(b.fine, number::is_finite(d));
        if d < b.d {
            return Best {
                t,
                limit: distance::limit(square),
                d,
                fine,
            };
        }
        Best {
            t: b.t,
            limit: b.limit,
            d: b.d,
            fine,
        }
    }

    // The nearest, with the 16 samples between knot i and the next.
    fn sample_span(&self, i: usize, b: Best) -> Best
        requires { i < self.now.curve.n + 3 }
        ensures { result ≡ through (sampled (shape_of self.now.curve) (view self.now.p))
            (listed 0 16 (sample_at (at1 plain self.now.curve.knots.now i) (at1 plain self.now.curve.knots.now (i + 1)) 16)) b }
    {
        let w0 = self.curve.knots[i];
        let w1 = self.curve.knots[i + 1];
        let mut best = b;
        for s in 0..16 {
            best = self.sample(samples::sample_at(w0, w1, 16, s), i, best);
        }
        best
    }

    // The same where the next knot lies above knot i; there are no samples where it does not.
    fn sample_pair(&self, i: usize, b: Best) -> Best
        requires { i < self.now.curve.n + 3 }
        ensures { result ≡ through (sampled (shape_of self.now.curve) (view self.now.p)) (pair_samples self.now.curve.knots.now 16 i) b }
    {
        let knots = self.curve.knots;
        if knots[i + 1] > knots[i] {
            return self.sample_span(i, b);
        }
        b
    }

    // The nearest of all samples, those of each pair of knots and then the domain's end, which lies in no span. It begins at infinity, so that the first
    // finite distance is taken.
    fn sample_all(&self) -> Best
        ensures { result ≡ best_sample (shape_of self.now.curve) (view self.now.p) }
    {
        let Spline { n, knots, .. } = self.curve;
        let infinite = f64::from_bits(0x7ff0_0000_0000_0000);
        let mut best = Best {
            t: knots[0],
            limit: infinite,
            d: infinite,
            fine: true,
        };
        let pairs = n + 3;
        for i in 0..pairs {
            best = self.sample_pair(i, best);
        }
        self.sample(knots[pairs], n, best)
    }

    // ---- Newton's rounds

    // The slope at t.
    fn slope_at(&self, t: f64) -> Slope
        ensures { result ≡ slope_at (shape_of self.now.curve) (view self.now.p) t }
    {
        let d = evaluate::orders(self.curve, t, 2);
        let c = P2 { x: d[0], y: d[1] };
        let c1 = P2 { x: d[2], y: d[3] };
        let c2 = P2 { x: d[4], y: d[5] };
        let w = c - self.p;
        Slope {
            f: w.dot(c1),
            df: c1.dot(c1) + w.x * c2.x + w.y * c2.y,
        }
    }

    // One round. The move is judged after the clamp, so that a round which an end holds back is the last.
    fn round(&self, t: f64) -> Round
        ensures { (left : ℕ) → progress result left
            ≡ round_of (shape_of self.now.curve) (view self.now.p) (record { t = t; left = left }) }
    {
        let g = self.slope_at(t);
        if g.df <= 0.0 {
            return Round::Last(t);
        }
        let Spline { n, knots, .. } = self.curve;
        let moved = t - g.f / g.df;
        let next = number::clamp(moved, knots[0], knots[n + 3]);
        if number::size(next - t) < 1e-15 {
            return Round::Last(next);
        }
        Round::On(next)
    }

    // The parameter after the rounds from t on.
    fn newton(&self, t: f64) -> f64
        ensures { result ≡ newton_from (shape_of self.now.curve) (view self.now.p) t }
    {
        let mut at = t;
        for _round in 0..ROUNDS {
            match self.round(at) {
                Round::Last(last) => return last,
                Round::On(next) => at = next,
            }
        }
        at
    }

    // ---- the answer

    // The parameter that is found.
    fn answer(&self) -> Result<f64, Refusal>
        ensures { told result ≡ closest_answer (trusted_spline self.now.curve) (view self.now.p) }
    {
        if outcome::either_wild(self.p.x, self.p.y) {
            return Err(Refusal::WildCoordinate);
        }
        let best = self.sample_all();
        if !best.fine {
            return Err(Refusal::WildOutcome);
        }
        let t = self.newton(best.t);
        if t != t {
            return Err(Refusal::WildOutcome);
        }
        Ok(t)
    }
}

// ---- the doors

// The parameter of the curve's point that lies nearest to (px, py), as far as samples and Newton's rounds find it. The curve is checked again.
// Corresponds to spline.rs: closest_param.
pub fn closest<C: Offer>(curve: &C, px: f64, py: f64) -> Result<f64, Refusal>
    ensures { told result ≡ closest_answer (C.offered curve.now) (record { x = px; y = py }) }
{
    curve.check_with(outcome::either_wild(px, py))?;
    let rooms = curve.rooms();
    let search = Search {
        curve: rooms.spline(),
        p: P2 { x: px, y: py },
    };
    search.answer()
}

// What was found for a point, in its place, and its refusal. The place of a refused one stays as it was.
fn hand(found: Result<f64, Refusal>, k: usize, out: &mut [f64], refusals: &mut [u64])
    requires fact_1 { k < length out.old }
    requires fact_2 { k < length refusals.old }
    ensures fact_1 { out.new ≡ set out.old k (get_or (told found).values 0 (at1 plain out.old k)) }
    ensures fact_2 { refusals.new ≡ set refusals.old k (told found).refusal.number }
{
    match found {
        Ok(t) => {
            out[k] = t;
            refusals[k] = 0;
        }
        Err(refusal) => {
            refusals[k] = refusal.number();
        }
    }
}

// Every point's search on an accepted curve.
// Stays: that the curve is accepted is asked here once, since a search is made anew for each point.
fn search_each(curve: Spline, points: &[f64], out: &mut [f64], refusals: &mut [u64])
    requires fact_1 { Accepted (take (curve.n + 4) curve.knots.now) curve.n }
    requires fact_2 { Room points.now out.old refusals.old }
    ensures { Asked 1 (each_found (trusted_spline curve.entry) points.now)
        out.old refusals.old (points_in points.now) out.new refusals.new }
{
    for (k, point) in points.chunks_exact(2).enumerate() {
        let search = Search {
            curve,
            p: P2 {
                x: point[0],
                y: point[1],
            },
        };
        hand(search.answer(), k, out, refusals);
    }
}

// The parameters of the curve's points that lie nearest to these points, x and y in turn, and the refusal of each. The curve is checked once.
// Corresponds to spline.rs: closest_param, for each point.
pub fn closest_many<C: Offer>(
    curve: &C,
    points: &[f64],
    out: &mut [f64],
    refusals: &mut [u64],
) -> Result<(), Refusal>
    ensures { many (verdict result) out.new refusals.new
        ≡ closest_many (C.offered curve.now) points.now out.old refusals.old }
{
    if points.len() % 2 != 0 {
        return Err(Refusal::OddCoordinates);
    }
    curve.check()?;
    many::room(points.len() / 2, 1, out.len(), refusals.len())?;
    search_each(curve.rooms().spline(), points, out, refusals);
    Ok(())
}
