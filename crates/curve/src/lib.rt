// The curve record, its check, and what its builds have in common.
#![tactic(auto)]

ghost use Rattle.std.specs.Prelude.{◌≡◌};
ghost use Rattle.refusal.specs.Refusals.{first_of, verdict};
ghost use Rattle.shape.specs.Spline.{shape_of};
ghost use Rattle.shape.specs.Offered.{with11};
ghost use Rattle.curve.specs.Record.{is_sum, shape_in, by_record, curve_over};
ghost use Rattle.curve.specs.Build.{build_of};
ghost use Rattle.curve.specs.Making.{measuring};

use refusal::Refusal;
use rooms::Rooms;
use shape::Spline;

// A cubic: `points` control points and `knot_count` knots, four more, and the length of its control polygon. What stands past the counts is +0.0
// in a curve that was built, and not read.
// Stays: there is no heap, and a record holds whatever its maker wrote, so that its counts stand beside its arrays.
#[derive(Clone, Copy)]
pub struct Curve {
    pub points: usize,
    pub knot_count: usize,
    pub length: f64,
    pub xs: [f64; 66],
    pub ys: [f64; 66],
    pub knots: [f64; 70],
}

// Whether a stored length is finite and has the bits of this sum.
pub fn is_sum(length: f64, sum: f64) -> bool
    ensures { result ≡ is_sum length sum }
{
    number::both(
        number::is_finite(length),
        number::bits(length) == number::bits(sum),
    )
}

impl Curve {
    // Its control points and knots, lent to be read.
    pub fn spline(&self) -> Spline<'_>
        ensures { shape_of result ≡ shape_in self.now }
    {
        Spline {
            n: self.points,
            xs: &self.xs,
            ys: &self.ys,
            knots: &self.knots,
        }
    }

    // Why it is refused by the rules 2 to 11 and 17, if it is. `wild` tells whether a point that the question has of its own is not finite, which is
    // 11, too.
    pub fn check_with(&self, wild: bool) -> Result<(), Refusal>
        ensures { verdict result ≡ first_of (with11 wild (by_record self.now).rules) }
    {
        shape::check(self.knot_count, self.spline())?;
        if wild {
            return Err(Refusal::WildCoordinate);
        }
        if !is_sum(
            self.length,
            polygon::length(self.points, &self.xs, &self.ys),
        ) {
            return Err(Refusal::RecordMismatch);
        }
        Ok(())
    }

    // The same where the question has no point of its own.
    pub fn check(&self) -> Result<(), Refusal>
        ensures { verdict result ≡ first_of (by_record self.now).rules }
    {
        self.check_with(false)
    }

    // The curve of control points and knots in their rooms, with its length, or 15 where that is not finite. `fine` tells whether all else that is
    // stored is.
    pub fn measured(rooms: Rooms, fine: bool) -> Result<Curve, Refusal>
        ensures { build_of result ≡ measuring fine (curve_over rooms.points rooms.knots rooms.xs rooms.ys) }
    {
        let Rooms {
            points,
            xs,
            ys,
            knots,
        } = rooms;
        if !fine {
            return Err(Refusal::WildOutcome);
        }
        let length = polygon::length(points, &xs, &ys);
        if !number::is_finite(length) {
            return Err(Refusal::WildOutcome);
        }
        Ok(Curve {
            points,
            knot_count: points + 4,
            length,
            xs,
            ys,
            knots,
        })
    }
}
