// The scalar: what vectors, the basis, points and systems are computed over, once for doubles and once for values with partials.
#![tactic(auto)]

ghost use Rattle.std.specs.Prelude.{◌≡◌};
ghost use Rattle.meaning.specs.Scalar.{Ops, plain};

// Numbers with the operations of the definitions' record `Ops`, of which `ops` is an instance. The methods have the names of its fields.
// Corresponds to spline.rs: Scalar.
pub trait Scalar: Copy {
    ghost ops: { Ops Self };

    // The constant x.
    fn cst(x: f64) -> Self
        ensures { result ≡ ops.cst x };

    // The number itself, without what it carries beside.
    fn val(self) -> f64
        ensures { result ≡ ops.val self };

    // self + o.
    fn plus(self, o: Self) -> Self
        ensures { result ≡ ops.plus self o };

    // self - o.
    fn minus(self, o: Self) -> Self
        ensures { result ≡ ops.minus self o };

    // self * o.
    fn times(self, o: Self) -> Self
        ensures { result ≡ ops.times self o };

    // self / o.
    fn over(self, o: Self) -> Self
        ensures { result ≡ ops.over self o };

    // -self.
    fn opp(self) -> Self
        ensures { result ≡ ops.opp self };

    // The root of self: +0.0 at or below 0.
    fn root(self) -> Self
        ensures { result ≡ ops.root self };

    // Whether every number in self is finite.
    fn is_fine(self) -> bool
        ensures { result ≡ ops.fine self };
}

impl Scalar for f64 {
    ghost ops = { plain };

    fn cst(x: f64) -> f64 {
        x
    }

    fn val(self) -> f64 {
        self
    }

    fn plus(self, o: f64) -> f64 {
        self + o
    }

    fn minus(self, o: f64) -> f64 {
        self - o
    }

    fn times(self, o: f64) -> f64 {
        self * o
    }

    fn over(self, o: f64) -> f64 {
        self / o
    }

    fn opp(self) -> f64 {
        -self
    }

    fn root(self) -> f64 {
        root::root(self)
    }

    fn is_fine(self) -> bool {
        number::is_finite(self)
    }
}
