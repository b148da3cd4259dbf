// A curve's numbers in the rooms that a record has for them: 66 control points and 70 knots.
#![tactic(auto)]

ghost use Rattle.std.specs.Prelude.{◌≡◌, ◌≤◌};
ghost use Rattle.knots.specs.Given.{given, given_list};
ghost use Rattle.shape.specs.Shape.{points_in, every_other};
ghost use Rattle.shape.specs.Spline.{shape_of};
ghost use Rattle.rooms.specs.Filled.{stored_knots, rooms_of, roomed};

use shape::Spline;
use std::array;

// Control points, their x and y apart, and knots.
// Stays: there is no heap, so that they are arrays with their number beside them.
#[derive(Clone, Copy)]
pub struct Rooms {
    pub points: usize,
    pub xs: [f64; 66],
    pub ys: [f64; 66],
    pub knots: [f64; 70],
}

impl Rooms {
    // The curve that these are the numbers of.
    pub fn spline(&self) -> Spline<'_>
        ensures { shape_of result ≡ roomed self.now }
    {
        Spline {
            n: self.points,
            xs: &self.xs,
            ys: &self.ys,
            knots: &self.knots,
        }
    }
}

// Every second number of coords from off on, one for each point that there is room for.
fn every_other(coords: &[f64], off: usize) -> [f64; 66]
    requires { off ≤ 1 }
    ensures { result ≡ every_other coords.now (points_in coords.now) off }
{
    let points = coords.len() / 2;
    array::from_fn(|i| if i < points { coords[2 * i + off] } else { 0.0 })
}

// The knots of n control points in their room: those given, or the uniform ones.
pub fn stored_knots(n: usize, knots: Option<&[f64]>) -> [f64; 70]
    ensures { result ≡ stored_knots n (given knots.entry) (given_list (λ k. k.now) knots.entry) }
{
    match knots {
        None => uniform::uniform(n),
        Some(list) => {
            let mut u = [0.0; 70];
            if n < 67 {
                buffer::put(list, n + 4, &mut u, 0);
            }
            u
        }
    }
}

// Control points x, y in turn, and knots if they are given, else uniform ones, in the rooms of a record.
pub fn in_rooms(coords: &[f64], knots: Option<&[f64]>) -> Rooms
    ensures { result ≡ rooms_of coords.now (given knots.entry) (given_list (λ k. k.now) knots.entry) }
{
    let points = coords.len() / 2;
    Rooms {
        points,
        xs: every_other(coords, 0),
        ys: every_other(coords, 1),
        knots: stored_knots(points, knots),
    }
}
