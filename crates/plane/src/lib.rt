// Vectors of the plane, over any scalar: the original's `P2`.
#![tactic(auto)]

ghost use Rattle.std.specs.Prelude.{◌≡◌};
ghost use Rattle.plane.specs.Vector.{add_v, sub_v, scale_v, dot_v, cross_v, norm_v, unit_v, rot90_v};
ghost use Rattle.plane.specs.View.{view};

use scalar::Scalar;
use std::ops::{Add, Sub};

#[derive(Clone, Copy, Debug)]
pub struct P2<S> {
    pub x: S,
    pub y: S,
}

// Corresponds to spline.rs: P2::add.
impl<S: Scalar> Add for P2<S> {
    type Output = P2<S>;

    ghost add_gives = { λ a b r. view r ≡ add_v S.ops (view a) (view b) };

    fn add(self, o: P2<S>) -> P2<S>
        ensures { view result ≡ add_v S.ops (view self) (view o) }
    {
        P2 {
            x: self.x.plus(o.x),
            y: self.y.plus(o.y),
        }
    }
}

// Corresponds to spline.rs: P2::sub.
impl<S: Scalar> Sub for P2<S> {
    type Output = P2<S>;

    ghost sub_gives = { λ a b r. view r ≡ sub_v S.ops (view a) (view b) };

    fn sub(self, o: P2<S>) -> P2<S>
        ensures { view result ≡ sub_v S.ops (view self) (view o) }
    {
        P2 {
            x: self.x.minus(o.x),
            y: self.y.minus(o.y),
        }
    }
}

impl<S: Scalar> P2<S> {
    // k times self.
    // Corresponds to spline.rs: P2::scale.
    pub fn scale(self, k: S) -> P2<S>
        ensures { view result ≡ scale_v S.ops (view self) k }
    {
        P2 {
            x: self.x.times(k),
            y: self.y.times(k),
        }
    }

    // The inner product of self and o.
    // Corresponds to spline.rs: P2::dot.
    pub fn dot(self, o: P2<S>) -> S
        ensures { result ≡ dot_v S.ops (view self) (view o) }
    {
        let along = self.x.times(o.x);
        let across = self.y.times(o.y);
        along.plus(across)
    }

    // The outer product of self and o: positive where o lies to the left of self.
    // Corresponds to spline.rs: P2::cross.
    pub fn cross(self, o: P2<S>) -> S
        ensures { result ≡ cross_v S.ops (view self) (view o) }
    {
        let one = self.x.times(o.y);
        let other = self.y.times(o.x);
        one.minus(other)
    }

    // The length of self: a constant where self is near zero.
    // Corresponds to spline.rs: P2::norm.
    #[tactic(auto, unfolding(crate::specs::Vector::norm_v))]
    pub fn norm(self) -> S
        ensures { result ≡ norm_v S.ops (view self) }
    {
        let sq = self.dot(self);
        if sq.val() < 1e-24 {
            return S::cst(root::root(sq.val()));
        }
        sq.root()
    }

    // The direction of self, or the constant (1, 0) where it has none.
    // Corresponds to spline.rs: P2::unit.
    #[tactic(auto, unfolding(crate::specs::Vector::unit_v))]
    pub fn unit(self) -> P2<S>
        ensures { view result ≡ unit_v S.ops (view self) }
    {
        let len = self.norm();
        if len.val() * len.val() < 1e-24 {
            return P2 {
                x: S::cst(1.0),
                y: S::cst(0.0),
            };
        }
        P2 {
            x: self.x.over(len),
            y: self.y.over(len),
        }
    }

    // self turned by 90 degrees counter-clockwise. Negated twice, x is what it was, but a result, whose partials are counted.
    // Corresponds to spline.rs: P2::rot90.
    pub fn rot90(self) -> P2<S>
        ensures { view result ≡ rot90_v S.ops (view self) }
    {
        P2 {
            x: self.y.opp(),
            y: self.x.opp().opp(),
        }
    }
}
