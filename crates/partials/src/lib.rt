// A value with its partials, and the operations on it: the original's `Dv`, with an array of 27 for its vector.
#![tactic(auto)]

ghost use Rattle.std.specs.Prelude.{◌≡◌, ◌≤◌, ℕ, Float, min};
ghost use Rattle.partials.specs.Dual.{count_of, part_at, part_of, partials, zip_dv, map_dv, cst_dv, var_dv, add_dv, sub_dv, mul_dv, div_dv, neg_dv, root_dv, overshoot_dv, fine_dv, dual};

use scalar::Scalar;
use std::ops::{Add, Div, Mul, Neg, Sub};

// The value is v. Its partial with respect to variable k is g[k], for each k below n; there are no others.
// Stays: there is no heap, so that the partials are an array with their number beside it.
#[derive(Clone, Copy, Debug)]
pub struct Dv {
    pub v: f64,
    pub g: [f64; 27],
    pub n: usize,
}

// Entry k of the first n of g, or of all 27 where n is larger: a missing one reads as +0.0.
fn part(g: &[f64; 27], n: usize, k: usize) -> f64
    ensures { result ≡ part_at g.now (min n 27) k }
{
    if k < n.min(27) {
        return g[k];
    }
    0.0
}

// n partials, f of each place, and +0.0 in the others of the 27.
#[inline]
fn partials<F: Fn(usize) -> f64>(n: usize, f: F) -> [f64; 27]
    requires few { n ≤ 27 }
    requires callable { F.IsAlwaysCallable f }
    ensures { (h : ℕ → Float) → ((k : ℕ) (x : Float) → F.post f k x → x ≡ h k) → result ≡ partials n h }
{
    let mut g = [0.0; 27];
    let front = &mut g[..n];
    for (k, x) in front.iter_mut().enumerate() {
        *x = f(k);
    }
    g
}

// The value v, with f of the partials of a and b as far as the longer of the two reaches. It reads copies: of these a processor may take several at
// once, also past a count, and choose afterwards.
// Corresponds to spline.rs: Dv::zip.
#[inline]
fn zip<F: Fn(f64, f64) -> f64>(v: f64, a: &Dv, b: &Dv, f: F) -> Dv
    requires { F.IsAlwaysCallable f }
    ensures { (h : Float → Float → Float) → ((x y r : Float) → F.post f x y r → r ≡ h x y) → result ≡ zip_dv h v a.now b.now }
{
    let (p, q) = (a.g, b.g);
    let (i, j) = (a.n, b.n);
    let n = a.count().max(b.count());
    Dv {
        v,
        g: partials(n, |k| f(part(&p, i, k), part(&q, j, k))),
        n,
    }
}

impl Dv {
    // How many partials there are: a count above 27 reads as 27.
    fn count(&self) -> usize
        ensures { (result ≡ count_of self.now) × (result ≤ 27) }
    {
        self.n.min(27)
    }

    // Partial k: a missing one reads as +0.0.
    pub fn part(&self, k: usize) -> f64
        ensures { result ≡ part_of self.now k }
    {
        part(&self.g, self.n, k)
    }

    // The constant x: it has no partials.
    // Corresponds to spline.rs: Scalar::cst of Dv.
    #[tactic(auto, unfolding(crate::specs::Dual::cst_dv))]
    pub fn cst(x: f64) -> Dv
        ensures { result ≡ cst_dv x }
    {
        Dv {
            v: x,
            g: [0.0; 27],
            n: 0,
        }
    }

    // Variable i of xs, with the partial 1.0 with respect to itself; +0.0 with no partials where there is no such variable.
    // Corresponds to spline.rs: Dv::var.
    #[tactic(auto, unfolding(crate::specs::Dual::var_dv))]
    pub fn var(xs: &[f64], i: usize) -> Dv
        ensures { result ≡ var_dv xs.now i }
    {
        if 26 < i {
            return Dv::cst(0.0);
        }
        if xs.len() <= i {
            return Dv::cst(0.0);
        }
        let mut g = [0.0; 27];
        g[i] = 1.0;
        Dv {
            v: xs[i],
            g,
            n: i + 1,
        }
    }

    // The value v, with self's partials times f. None is asked for past the count, so each is what stands in the room.
    // Corresponds to spline.rs: Dv::map.
    pub fn map(self, v: f64, f: f64) -> Dv
        ensures { result ≡ map_dv v f self }
    {
        let n = self.count();
        Dv {
            v,
            g: partials(n, |k| part(&self.g, 27, k) * f),
            n,
        }
    }

    // The root of self: the constant +0.0 at or below 0.
    // Corresponds to spline.rs: Scalar::sqrt of Dv.
    #[tactic(auto, unfolding(crate::specs::Dual::root_dv))]
    pub fn root(self) -> Dv
        ensures { result ≡ root_dv self }
    {
        if self.v <= 0.0 {
            return Dv::cst(0.0);
        }
        let r = root::root(self.v);
        self.map(r, 0.5 / r)
    }

    // How far self lies outside lo to hi: the constant +0.0 inside.
    // Corresponds to spline.rs: overshoot.
    #[tactic(auto, unfolding(crate::specs::Dual::overshoot_dv))]
    pub fn overshoot(self, lo: f64, hi: f64) -> Dv
        ensures { result ≡ overshoot_dv self lo hi }
    {
        if self.v < lo {
            return self - Dv::cst(lo);
        }
        if self.v > hi {
            return self - Dv::cst(hi);
        }
        Dv::cst(0.0)
    }

    // Whether the value and each of its partials is finite.
    pub fn is_fine(self) -> bool
        ensures { result ≡ fine_dv self }
    {
        let mut fine = number::is_finite(self.v);
        for x in &self.g[..self.count()] {
            fine &= number::is_finite(*x);
        }
        fine
    }
}

// Corresponds to spline.rs: Add of Dv.
impl Add for Dv {
    type Output = Dv;

    ghost add_gives = { λ a b r. r ≡ add_dv a b };

    #[tactic(auto, unfolding(crate::specs::Dual::add_dv))]
    fn add(self, o: Dv) -> Dv
        ensures { result ≡ add_dv self o }
    {
        zip(self.v + o.v, &self, &o, |x, y| x + y)
    }
}

// Corresponds to spline.rs: Sub of Dv.
impl Sub for Dv {
    type Output = Dv;

    ghost sub_gives = { λ a b r. r ≡ sub_dv a b };

    #[tactic(auto, unfolding(crate::specs::Dual::sub_dv))]
    fn sub(self, o: Dv) -> Dv
        ensures { result ≡ sub_dv self o }
    {
        zip(self.v - o.v, &self, &o, |x, y| x - y)
    }
}

// Corresponds to spline.rs: Mul of Dv.
impl Mul for Dv {
    type Output = Dv;

    ghost mul_gives = { λ a b r. r ≡ mul_dv a b };

    #[tactic(auto, unfolding(crate::specs::Dual::mul_dv))]
    fn mul(self, o: Dv) -> Dv
        ensures { result ≡ mul_dv self o }
    {
        let (a, b) = (self.v, o.v);
        zip(a * b, &self, &o, |x, y| x * b + a * y)
    }
}

// Corresponds to spline.rs: Div of Dv.
impl Div for Dv {
    type Output = Dv;

    ghost div_gives = { λ a b r. r ≡ div_dv a b };

    #[tactic(auto, unfolding(crate::specs::Dual::div_dv))]
    fn div(self, o: Dv) -> Dv
        ensures { result ≡ div_dv self o }
    {
        let (a, b) = (self.v, o.v);
        zip(a / b, &self, &o, |x, y| x / b - a * y / (b * b))
    }
}

// Corresponds to spline.rs: Neg of Dv.
impl Neg for Dv {
    type Output = Dv;

    ghost neg_gives = { λ a r. r ≡ neg_dv a };

    #[tactic(auto, unfolding(crate::specs::Dual::neg_dv))]
    fn neg(self) -> Dv
        ensures { result ≡ neg_dv self }
    {
        self.map(-self.v, -1.0)
    }
}

// What is computed over any scalar is computed over values with partials by these.
impl Scalar for Dv {
    ghost ops = { dual };

    fn cst(x: f64) -> Dv {
        Dv::cst(x)
    }

    fn val(self) -> f64 {
        self.v
    }

    fn plus(self, o: Dv) -> Dv {
        self + o
    }

    fn minus(self, o: Dv) -> Dv {
        self - o
    }

    fn times(self, o: Dv) -> Dv {
        self * o
    }

    fn over(self, o: Dv) -> Dv {
        self / o
    }

    fn opp(self) -> Dv {
        -self
    }

    fn root(self) -> Dv {
        self.root()
    }

    fn is_fine(self) -> bool {
        self.is_fine()
    }
}
