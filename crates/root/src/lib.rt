// The square root of a double, rounded to the nearest double. The work is done on whole numbers; floating point only guesses.
#![tactic(auto)]

ghost use Rattle.std.specs.Prelude.{◌≡◌, ◌+◌, ◌*◌, ◌^◌, ◌≤◌, ◌<◌};
ghost use Rattle.std.specs.Float.{binary64};
ghost use Rattle.std.specs.Float.Ieee.{of_bits};
ghost use Rattle.meaning.specs.Root.{root_of};
ghost use Rattle.root.specs.Pattern.{pattern_units};

// A guess at the whole part of the root of f, the double whose pattern is p. It is good where f lies between 2 ^ 52 and 2 ^ 54, but all that
// is promised is its size: `floor_root` mends it. The guess is f times 1 / √f, which three steps of Newton's method make of a first one
// that halves the exponent in the pattern. To this 2 ^ 52 less a half is added, so that the whole part stands in the sum's last digits.
fn guess(p: u64) -> u64
    requires { p < 0x7ff0_0000_0000_0000 }
    ensures { result < 2 ^ 28 }
{
    let f = f64::from_bits(p);
    let y0 = f64::from_bits(0x5fe6_eb50_c7b5_37a9 - p / 2);
    let h = 0.5 * f;
    let y1 = y0 * (1.5 - h * y0 * y0);
    let y2 = y1 * (1.5 - h * y1 * y1);
    let y3 = y2 * (1.5 - h * y2 * y2);
    let z = f * y3 + 4503599627370495.5;
    if z < 9007199254740992.0 {
        f64::to_bits(z) % 0x1000_0000
    } else {
        0x400_0000
    }
}

// The whole part of the root of m: the largest s whose square is at most m. It comes from any guess, however wrong: down while the
// square is above m, then up while the next square is not. From a good guess neither loop takes a turn.
// Stays: what the loops count is the root that is sought, and no index.
fn floor_root(m: u64, guess: u64) -> u64
    requires { (m < 2 ^ 54) × (guess < 2 ^ 28) }
    ensures { (result * result ≤ m) × (m < (result + 1) * (result + 1)) }
{
    let mut s = guess;
    while m < s * s {
        s -= 1;
    }
    while 2 * s < m - s * s {
        s += 1;
    }
    s
}

// The whole number nearest to the root of m * 2 ^ 52. The guess is made from p, which should be the pattern of m as a double.
// The root of m has the first 27 digits, and one division gives the other 26, as it is done on paper: what is left of m, over twice the
// digits so far. The square of the new digits is still to be taken off then, and the last test does that as it rounds.
fn digits(m: u64, p: u64) -> u64
    requires { (2 ^ 52 ≤ m) × (m < 2 ^ 54) × (p < 0x7ff0_0000_0000_0000) }
    ensures { (m * 2 ^ 52 ≤ result * result + result) × (result * result < m * 2 ^ 52 + result) }
{
    let s = floor_root(m, guess(p));
    let a = (m - s * s) * 0x200_0000;
    let q = a / s;
    let r = s * 0x400_0000 + q;
    if q * q + r < a % s * 0x800_0000 {
        r + 1
    } else {
        r
    }
}

// A positive double as m * 2 ^ a units of 2 ^ -2096, with an m of 53 digits: 2 ^ -1074 is the smallest double, and the 1022 places more
// keep the exponent a from going below 0 where a subnormal's digits are moved up.
#[derive(Clone, Copy)]
struct Scaled {
    m: u64,
    a: u64,
}

// The digits and the exponent of the double with the pattern b. A subnormal has fewer than 53 digits: its count of leading zeros says
// how far they go up.
fn parts(b: u64) -> Scaled
    requires { (0 < b) × (b < 0x7ff0_0000_0000_0000) }
    ensures { (2 ^ 52 ≤ result.m) × (result.m < 2 ^ 53) × (result.a ≤ 3067) × (result.m * 2 ^ result.a ≡ pattern_units b * 2 ^ 1022) }
{
    if b < 0x10_0000_0000_0000 {
        let z = u64::leading_zeros(b) as u64;
        Scaled {
            m: b << (z - 11),
            a: 1033 - z,
        }
    } else {
        Scaled {
            m: b % 0x10_0000_0000_0000 + 0x10_0000_0000_0000,
            a: b / 0x10_0000_0000_0000 + 1021,
        }
    }
}

// The pattern of the root of the positive double with the pattern b. An odd exponent gives its last place to the digits, so that half of
// it is whole; the second argument of `digits` is the pattern of m << o. In both sums the leading one of the digits, which a pattern does
// not store, adds one to the exponent's field.
fn root_bits(b: u64) -> u64
    requires { (0 < b) × (b < 0x7ff0_0000_0000_0000) }
    ensures { (result < 0x7ff0_0000_0000_0000) × (of_bits binary64 result ≡ root_of (of_bits binary64 b)) }
{
    let s = parts(b);
    let m = s.m;
    let a = s.a;
    let o = a % 2;
    let q = digits(m << o, m + (1074 + o) * 0x10_0000_0000_0000);
    a / 2 * 0x10_0000_0000_0000 + q
}

// The double nearest to the exact root of x; +0.0 where x is 0 or below it; an infinity or a NaN as it is.
// Corresponds to spline.rs: f64::sqrt (as Scalar::sqrt uses it).
pub fn root(x: f64) -> f64
    ensures { result ≡ root_of x }
{
    if x > 0.0 {
        let b = f64::to_bits(x);
        if b < 0x7ff0_0000_0000_0000 {
            f64::from_bits(root_bits(b))
        } else {
            x
        }
    } else if x != x {
        x
    } else {
        0.0
    }
}
