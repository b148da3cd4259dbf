// What the curve code asks of a double, by comparisons: each function answers for every bit pattern. And two tests joined.
#![tactic(auto)]

ghost use Rattle.std.specs.Prelude.{◌≡◌, ◌&&◌, ◌||◌};
ghost use Rattle.std.specs.Float.{binary64};
ghost use Rattle.std.specs.Float.Ieee.{to_bits};
ghost use Rattle.std.specs.Float.Ieee.Scale.{finite};
ghost use Rattle.meaning.specs.Number.{size_of, smaller, at_least, clamp_of};
ghost use Rattle.number.specs.Magnitude.{magnitude_of};

// Whether x is neither a NaN nor an infinity: either of them less itself is a NaN. It is one value and no branch, so that a loop can take several at once.
// Corresponds to spline.rs: f64::is_finite.
pub fn is_finite(x: f64) -> bool
    ensures { result ≡ finite x }
{
    x - x == 0.0
}

// x without its sign. A zero is set, since minus zero does not compare below zero.
// Corresponds to spline.rs: f64::abs.
pub fn size(x: f64) -> f64
    ensures { result ≡ size_of x }
{
    if x < 0.0 {
        return -x;
    }
    if x == 0.0 {
        return 0.0;
    }
    x
}

// x, turned round where it lies below zero: its size, but that minus zero stays. An order of two does not see that.
fn magnitude(x: f64) -> f64
    ensures { result ≡ magnitude_of x }
{
    if x < 0.0 {
        return -x;
    }
    x
}

// Whether the size of x stands before that of y in totalOrder, where a NaN is the last.
// Corresponds to spline.rs: f64::total_cmp of two f64::abs.
pub fn is_smaller(x: f64, y: f64) -> bool
    ensures { result ≡ smaller x y }
{
    if x != x {
        return false;
    }
    if y != y {
        return true;
    }
    magnitude(x) < magnitude(y)
}

// Whether the size of x is that of y or stands after it: of two equal sizes the later is at least the earlier.
// Corresponds to spline.rs: the choice that max_by makes with total_cmp.
pub fn at_least(x: f64, y: f64) -> bool
    ensures { result ≡ at_least x y }
{
    !is_smaller(x, y)
}

// x, or the end of lo to hi that it lies past; a zero keeps its sign, a NaN stays.
// Corresponds to spline.rs: f64::clamp.
pub fn clamp(x: f64, lo: f64, hi: f64) -> f64
    ensures { result ≡ clamp_of x lo hi }
{
    let mut y = x;
    if x < lo {
        y = lo;
    }
    if hi < y {
        return hi;
    }
    y
}

// The bits of x. A NaN has many; this is one of them.
pub fn bits(x: f64) -> u64
    ensures { result ≡ to_bits binary64 x }
{
    if x != x {
        return 0x7ff8_0000_0000_0000;
    }
    f64::to_bits(x)
}

// ---- two tests joined: a value, where the operators of the language are branches

// Whether both hold.
pub fn both(a: bool, b: bool) -> bool
    ensures { result ≡ (a && b) }
{
    if a { b } else { false }
}

// Whether one of the two holds.
pub fn either(a: bool, b: bool) -> bool
    ensures { result ≡ (a || b) }
{
    if a { true } else { b }
}
