// The distance of two points, which everything that measures calls by this name; and the square that tells most of them.
#![tactic(auto)]

ghost use Rattle.std.specs.Prelude.{◌≡◌, false, suc, ◌^◌, ◌<◌, max, T};
ghost use Rattle.std.specs.Float.Ieee.Exact.{HasValue};
ghost use Rattle.meaning.specs.Root.{in_units, unsigned};
ghost use Rattle.root.specs.Pattern.{pattern_units};
ghost use Rattle.plane.specs.View.{view};
ghost use Rattle.distance_rule.specs.Distance.{leading_place, scaled_down, length_of, distance_of};
ghost use Rattle.distance_rule.specs.Squares.{square_of, limit_of};

use plane::P2;

// ---- powers of two, in units of 2 ^ -1074

// The place of the leading digit of the positive double with the pattern p. A subnormal's pattern is its number of units; any other's leading one stands
// 52 places above the last digit, whose place the exponent's field tells.
fn leading(p: u64) -> u64
    requires { (0 < p) × (p < 0x7ff0_0000_0000_0000) }
    ensures { result ≡ leading_place (pattern_units p) }
{
    if p < 0x10_0000_0000_0000 {
        63 - u64::leading_zeros(p) as u64
    } else {
        p / 0x10_0000_0000_0000 + 51
    }
}

// The double that is 2 ^ j units.
fn power(j: u64) -> f64
    requires { j < 2098 }
    ensures { HasValue result false (2 ^ j) (2 ^ 1074) }
{
    if j < 52 {
        f64::from_bits(1 << j)
    } else {
        f64::from_bits((j - 51) * 0x10_0000_0000_0000)
    }
}

// x over 2 ^ j units, rounded once. The power 2 ^ (1074 - j) that x is multiplied by is no double where j is below 51: such an x is subnormal, and is
// multiplied by 2 ^ 1023 before, which changes none of its digits.
fn scaled(x: f64, j: u64) -> f64
    requires { T (unsigned x) × (in_units x < 2 ^ suc j) × (j < 2098) }
    ensures { result ≡ scaled_down j (in_units x) }
{
    if j < 51 {
        x * power(2097) * power(1125 - j)
    } else {
        x * power(2148 - j)
    }
}

// ---- the length of a vector

// The larger of two sizes.
// Stays: what is asked of it is said in whole units, which the contract of std's `max` has no word for.
fn larger(x: f64, y: f64) -> f64
    requires { T (unsigned x) × T (unsigned y) }
    ensures { T (unsigned result) × (in_units result ≡ max (in_units x) (in_units y)) }
{
    if x < y {
        return y;
    }
    x
}

// The length of a vector whose coordinates have the sizes x and y, of which m is the larger. Both are scaled by the one power of two that brings m to at
// least 1 and below 2, and the scale is undone by one multiplication.
fn length(x: f64, y: f64, m: f64) -> f64
    requires { T (unsigned x) × T (unsigned y) × T (unsigned m) × (in_units m ≡ max (in_units x) (in_units y)) }
    ensures { result ≡ length_of (in_units x) (in_units y) }
{
    if m == 0.0 {
        return 0.0;
    }
    let j = leading(f64::to_bits(m));
    let w = P2 {
        x: scaled(x, j),
        y: scaled(y, j),
    };
    root::root(w.dot(w)) * power(j)
}

// ---- the distance

// The square of the distance of a and b, where it is neither too small nor too large: who looks for the least distance asks it first.
// Corresponds to spline.rs: the closure dist of closest_param, without its root.
pub fn square(a: P2<f64>, b: P2<f64>) -> f64
    ensures { result ≡ square_of (view a) (view b) }
{
    let d = a - b;
    d.dot(d)
}

// The square from which on no distance is less than the one with the square s.
pub fn limit(s: f64) -> f64
    ensures { result ≡ limit_of s }
{
    let least = f64::from_bits(0x0380_0000_0000_0000);
    if s < least {
        return least;
    }
    s
}

// The distance of a and b. Nearly always it is the root of the square, and nothing needs to be scaled.
// Corresponds to spline.rs: the closure dist of closest_param, with this rule in place of hypot.
pub fn distance(a: P2<f64>, b: P2<f64>) -> f64
    ensures { result ≡ distance_of (view a) (view b) }
{
    let s = square(a, b);
    let least = f64::from_bits(0x0380_0000_0000_0000);
    let infinite = f64::from_bits(0x7ff0_0000_0000_0000);
    if number::both(least <= s, s < infinite) {
        return root::root(s);
    }
    let d = a - b;
    if number::both(number::is_finite(d.x), number::is_finite(d.y)) {
        let x = number::size(d.x);
        let y = number::size(d.y);
        return length(x, y, larger(x, y));
    }
    root::root(s)
}
