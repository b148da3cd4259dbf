// What a call leaves behind: numbers in a lent slice, where there is room and each is finite, or one number by value; else a refusal.
#![tactic(auto)]

ghost use Rattle.std.specs.Prelude.{◌≡◌, not, length};
ghost use Rattle.std.specs.List.{list_all};
ghost use Rattle.std.specs.Float.Ieee.Scale.{finite};
ghost use Rattle.refusal.specs.Refusals.{verdict};
ghost use Rattle.meaning.specs.Scalar.{plain};
ghost use Rattle.meaning.specs.Table.{at1};
ghost use Rattle.meaning.specs.Search.{seek};
ghost use Rattle.outcome.specs.Outcome.{either_wild, delivery_rules, outcome, answering};

use refusal::Refusal;

// Whether each of the numbers is finite. The pass has no way out but its end, so that a processor takes several numbers at once.
fn all_finite(a: &[f64]) -> bool
    ensures { result ≡ list_all (λ x. finite x) a.now }
{
    a.iter().fold(true, |fine, x| fine & number::is_finite(*x))
}

// The first of the numbers that is not finite, or how many they are, by going from one to the next.
fn seek_wild(a: &[f64]) -> usize
    ensures { result ≡ seek 0 (length a.now) (λ i. not (finite (at1 plain a.now i))) }
{
    a.iter()
        .position(|x| !number::is_finite(*x))
        .unwrap_or(a.len())
}

// The first of the first k numbers that is not finite, or k; a number that is not there is not. Most lists have none, which a pass tells first.
pub fn first_wild(a: &[f64], k: usize) -> usize
    ensures { result ≡ seek 0 k (λ i. not (finite (at1 plain a.now i))) }
{
    let front = &a[..k.min(a.len())];
    if all_finite(front) {
        return front.len();
    }
    seek_wild(front)
}

// Whether x or y is not finite.
pub fn either_wild(x: f64, y: f64) -> bool
    ensures { result ≡ either_wild x y }
{
    number::either(!number::is_finite(x), !number::is_finite(y))
}

// The first k of the numbers, where there is room for them and each is finite; a number that is not there is not.
pub fn deliver(numbers: &[f64], k: usize, out: &mut [f64]) -> Result<(), Refusal>
    ensures { outcome (verdict result) out.new
        ≡ answering (delivery_rules numbers.now k out.old) numbers.now k out.old }
{
    if out.len() < k {
        return Err(Refusal::ShortSlice);
    }
    if first_wild(numbers, k) < k {
        return Err(Refusal::WildOutcome);
    }
    buffer::put(numbers, k, out, 0);
    Ok(())
}
