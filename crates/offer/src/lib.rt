// A curve as somebody offers it, a record or two slices: what every question asks of it before its own work. Whoever made it, it is checked again.
#![tactic(auto)]

ghost use Rattle.std.specs.Prelude.{◌≡◌, ◌+◌, true, take, Option, Some, None, IfSome, Float};
ghost use Rattle.std.specs.Float.Ieee.Scale.{finite};
ghost use Rattle.meaning.specs.Scalar.{plain};
ghost use Rattle.refusal.specs.Refusals.{first_of, verdict};
ghost use Rattle.refusal.proofs.Rows.{Passed};
ghost use Rattle.shape.specs.Offered.{Offered, in_slices, with11};
ghost use Rattle.shape.proofs.Sound.{Sound, slices_sound};
ghost use Rattle.rooms.specs.Filled.{roomed};
ghost use Rattle.curve.specs.Record.{by_record, length_in};
ghost use Rattle.curve.proofs.Recheck.{record_sound, length_finite};
ghost use Rattle.evaluate.specs.Point.{orders_of};
ghost use Rattle.evaluate.specs.Piece.{found};
ghost use Rattle.hull.proofs.Given.{AllDoubles, Doubles, AllNumbers};

use curve::Curve;
use knots::Form;
use refusal::Refusal;
use rooms::Rooms;

// What offers a curve.
pub trait Offer {
    // The rules that it is held to, and its shape.
    ghost offered: { Self → Offered };

    // The length that is stored with it, if one is.
    ghost stored: { Self → Option Float };

    // Why it is refused, if it is. `wild` tells whether a point that the question has of its own is not finite.
    // What is found to be a curve has doubles for its numbers, as their types say.
    fn check_with(&self, wild: bool) -> Result<(), Refusal>
        ensures rules { verdict result ≡ first_of (with11 wild (offered self.now).rules) }
        ensures doubles { Passed (offered self.now).rules → AllNumbers (offered self.now).shape };

    // The same where the question has no point of its own.
    fn check(&self) -> Result<(), Refusal>
        ensures rules { verdict result ≡ first_of (offered self.now).rules }
        ensures doubles { Passed (offered self.now).rules → AllNumbers (offered self.now).shape }
    {
        self.check_with(false)
    }

    // The point at t and its derivatives up to order nd, x and y in turn.
    fn orders(&self, t: f64, nd: usize) -> [f64; 10]
        ensures { Passed (offered self.now).rules
            → result ≡ orders_of plain (found (offered self.now).shape) (offered self.now).shape t nd };

    // The knots of a curve, as many as it has.
    fn knots(&self) -> &[f64]
        ensures { Passed (offered self.now).rules
            → result.now ≡ take ((offered self.now).shape.n + 4) (offered self.now).shape.knots };

    // The length of the control polygon: the one that is stored, or else the sum.
    fn length(&self) -> f64
        ensures sum { Passed (offered self.now).rules → result ≡ length_in (offered self.now).shape }
        ensures kept { IfSome (stored self.now) (λ l. result ≡ l) };

    // Its control points, x and y apart, and its knots, in the rooms of a record.
    fn rooms(&self) -> Rooms
        ensures { roomed result ≡ (offered self.now).shape };

    // What its rules let through is a curve, and a length that is stored with it is finite.
    ghost sound: { (c : Self) → Sound (offered c) };

    ghost fine: { (c : Self) → Passed (offered c).rules → IfSome (stored c) (λ l. finite l ≡ true) };
}

// Control points x, y in turn, and knots.
#[derive(Clone, Copy)]
pub struct Slices<'a> {
    pub coords: &'a [f64],
    pub knots: &'a [f64],
}

// What the type of a slice says of its numbers, for a proof: there is nothing to do.
fn are_doubles(a: &[f64])
    ensures { AllDoubles a.now }
{
    let _ = a;
}

// The same of the type of a record, and of the length that it stores.
#[inline(always)]
fn has_doubles(curve: Curve)
    ensures { Doubles (by_record curve).shape curve.length }
{
    let _ = curve;
}

impl Offer for Curve {
    ghost offered = { by_record };

    ghost stored = { λ c. Some c.length };

    ghost sound = { record_sound };

    ghost fine = { length_finite };

    fn check_with(&self, wild: bool) -> Result<(), Refusal> {
        has_doubles(*self);
        self.check_with(wild)
    }

    fn orders(&self, t: f64, nd: usize) -> [f64; 10] {
        evaluate::orders(self.spline(), t, nd)
    }

    fn knots(&self) -> &[f64] {
        &self.knots[..self.points.min(66) + 4]
    }

    fn length(&self) -> f64 {
        has_doubles(*self);
        self.length
    }

    fn rooms(&self) -> Rooms {
        Rooms {
            points: self.points,
            xs: self.xs,
            ys: self.ys,
            knots: self.knots,
        }
    }
}

impl Offer for Slices<'_> {
    ghost offered = { λ s. in_slices s.coords.now s.knots.now };

    ghost stored = { λ s. None };

    ghost sound = { λ s. slices_sound s.coords.now s.knots.now };

    ghost fine = { λ s p. tt };

    fn check_with(&self, wild: bool) -> Result<(), Refusal> {
        are_doubles(self.coords);
        are_doubles(self.knots);
        shape::check_handles(Form::Control, self.coords, Some(self.knots))?;
        if wild {
            return Err(Refusal::WildCoordinate);
        }
        Ok(())
    }

    fn orders(&self, t: f64, nd: usize) -> [f64; 10] {
        evaluate::orders_slices(self.knots, self.coords, t, nd)
    }

    fn knots(&self) -> &[f64] {
        self.knots
    }

    fn length(&self) -> f64 {
        polygon::length_in_turn(self.coords)
    }

    fn rooms(&self) -> Rooms {
        rooms::in_rooms(self.coords, Some(self.knots))
    }
}
