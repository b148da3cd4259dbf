// One cell: c + 1 doubles, a value and its partials, that lie in a slice. What is copied out of the slices has +0.0 past its partials, so that a
// product reads them as they are.
ghost use Rattle.std.specs.Prelude.{◌≡◌, ◌+◌, ◌<◌, ◌≤◌, max, map, length};
ghost use Rattle.std.specs.Float.{nan, binary64};
ghost use Rattle.std.specs.Float.Ieee.{sub};
ghost use Rattle.std.specs.Float.Ieee.Scale.{finite};
ghost use Rattle.meaning.specs.Scalar.{zero64};
ghost use Rattle.meaning.specs.Search.{every};
ghost use Rattle.partials.specs.Dual.{sub_dv, mul_dv};
ghost use Rattle.solve_partials.specs.Sweep.{Swept};
ghost use Rattle.solve_partials.specs.Held.{numbered, valued, Clean, less_product};

// The partials of the product a * b taken off, those that stand below end.
fn less_product(t: &mut [f64], a: &[f64; 28], b: &[f64; 28], end: usize)
    requires { (1 ≤ end) × (end ≤ length t.old) × (end ≤ 28) }
    ensures { Swept (less_product t.old a.now b.now) nan 1 end t.old t.new }
{
    let x = a[0];
    let y = b[0];
    // Stays: one index goes along three slices, and two zips in one another are no plainer.
    for j in 1..end {
        t[j] = t[j] - (a[j] * y + x * b[j]);
    }
}

// +0.0 taken off each number: where the product has no partials.
fn less_nothing(t: &mut [f64])
    ensures { t.new ≡ map (λ x. sub binary64 x zero64) t.old }
{
    for x in t {
        *x = *x - 0.0;
    }
}

// The value with n partials in t less the product of a and b, in place. Answers how many partials it has then. Where t lacks partials that the
// product has, they are set to +0.0 first; products that neither a nor b has are not formed.
pub(crate) fn subtract(
    t: &mut [f64],
    n: usize,
    a: &[f64; 28],
    na: usize,
    b: &[f64; 28],
    nb: usize,
) -> usize
    requires { (n < length t.old) × (na < length t.old) × (nb < length t.old) × (length t.old ≤ 28)
        × Clean a.now na × Clean b.now nb }
    ensures { (result ≡ max n (max na nb))
        × (valued t.new result ≡ sub_dv (valued t.old n) (mul_dv (valued a.now na) (valued b.now nb))) }
{
    let np = na.max(nb);
    let top = n.max(np);
    t[n + 1..top + 1].fill(0.0);
    less_product(t, a, b, np + 1);
    less_nothing(&mut t[np + 1..top + 1]);
    t[0] = t[0] - a[0] * b[0];
    top
}

// Whether the value in t and its n partials are finite. The loop keeps whether one is not: that test costs a processor less than its opposite.
pub(crate) fn all_finite(t: &[f64], n: usize) -> bool
    requires { n < length t.now }
    ensures { result ≡ every (n + 1) (λ j. finite (numbered t.now j)) }
{
    let mut spoilt = false;
    for x in &t[..n + 1] {
        spoilt = number::either(spoilt, !number::is_finite(*x));
    }
    !spoilt
}

// The value in t and its n partials, copied out.
pub(crate) fn copy(t: &[f64], n: usize) -> [f64; 28]
    requires { (n < length t.now) × (n < 28) }
    ensures { (length result ≡ 28) × Clean result n × (valued result n ≡ valued t.now n) }
{
    let mut out = [0.0; 28];
    out[..n + 1].copy_from_slice(&t[..n + 1]);
    out
}
