// Parameters spread over the domain of a curve. A curve is checked again, whoever made it.
#![tactic(auto)]

ghost use Rattle.std.specs.Prelude.{◌≡◌, [], ℕ, ◌+◌, ◌-◌, ◌≤◌, length};
ghost use Rattle.std.proofs.Math.Seq.{paste};
ghost use Rattle.meaning.specs.Search.{listed};
ghost use Rattle.refusal.specs.Refusals.{verdict};
ghost use Rattle.shape.specs.Trusting.{trusting};
ghost use Rattle.samples.specs.Walk.{walked, walk_of};
ghost use Rattle.samples.specs.Samples.{sample_at, rising_samples, counted, count_in, samples_answer};

use offer::Offer;
use refusal::Refusal;

// Sample s of per between w0 and w1.
// Corresponds to spline.rs: the number that Curve::samples pushes.
pub fn sample_at(w0: f64, w1: f64, per: u8, s: u8) -> f64
    ensures { result ≡ sample_at w0 w1 per s }
{
    w0 + (w1 - w0) * s as f64 / per as f64
}

// Puts as many samples between w0 and w1 into room as it has places.
fn sample_pair(w0: f64, w1: f64, room: &mut [f64])
    requires { length room.old ≤ 16 }
    ensures { room.new ≡ listed 0 (length room.old) (sample_at w0 w1 (length room.old)) }
{
    let per = room.len() as u8;
    for (s, place) in room.iter_mut().enumerate() {
        *place = sample_at(w0, w1, per, s as u8);
    }
}

// Puts per samples between w0 and w1 into room from index at on where w1 lies above w0, and none otherwise. Answers the index after the samples.
fn sample_rising(w0: f64, w1: f64, per: usize, room: &mut [f64], at: usize) -> usize
    requires fact_1 { at + per ≤ length room.old }
    requires fact_2 { per ≤ 16 }
    ensures fact_1 { result ≡ at + length (rising_samples w0 w1 per) }
    ensures fact_2 { room.new ≡ paste room.old at (rising_samples w0 w1 per) (length (rising_samples w0 w1 per)) }
{
    if w1 > w0 {
        sample_pair(w0, w1, &mut room[at..at + per]);
        return at + per;
    }
    at
}

// Puts the samples between knots into room, those of each rising pair and then the last knot, and answers how many there are.
// Corresponds to spline.rs: Curve::samples.
fn walk(knots: &[f64], per: usize, room: &mut [f64; 1105]) -> usize
    requires fact_1 { 4 ≤ length knots.now }
    requires fact_2 { length knots.now ≤ 70 }
    requires fact_3 { per ≤ 16 }
    ensures fact_1 { walked result room.new ≡ walk_of (length knots.now - 4) knots.now per room.old }
    ensures fact_2 { result ≤ 1105 }
{
    let mut at = 0;
    for (w0, w1) in knots.iter().zip(&knots[1..]) {
        at = sample_rising(*w0, *w1, per, room, at);
    }
    room[at] = knots[knots.len() - 1];
    at + 1
}

// The samples of the domain, and how many there are: the control points do not matter.
fn answer_samples(knots: &[f64], per: usize, out: &mut [f64]) -> Result<usize, Refusal>
    requires fact_1 { 4 ≤ length knots.now }
    requires fact_2 { length knots.now ≤ 70 }
    ensures { (n : ℕ) → counted (verdict result) out.new (count_in result n)
        ≡ samples_answer (trusting (length knots.now - 4) [] [] knots.now) per out.old n }
{
    if per > 16 {
        return Err(Refusal::TooMuchAsked);
    }
    let mut room = [0.0; 1105];
    let count = walk(knots, per, &mut room);
    outcome::deliver(&room, count, out)?;
    Ok(count)
}

// per parameters from the start of each rising knot pair on, then the domain's end. Answers how many there are.
// Corresponds to spline.rs: Curve::samples.
pub fn samples<C: Offer>(curve: &C, per: usize, out: &mut [f64]) -> Result<usize, Refusal>
    ensures { (n : ℕ) → counted (verdict result) out.new (count_in result n)
        ≡ samples_answer (C.offered curve.now) per out.old n }
{
    curve.check()?;
    answer_samples(curve.knots(), per, out)
}
