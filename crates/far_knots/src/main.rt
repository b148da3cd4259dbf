// Why demand 3 (docs/RULES.md) bounds the knots: a curve that the rules accept, with knots of 2^1023, all of its control points (1, 1), and its point at
// 0 elsewhere. docs/HULL.md has the reason, and `hull/proofs/Examples` the same as a theorem.
#![tactic(auto)]

use refusal::Refusal;
use std::io;

// The point at 0 of the curve with all its control points at (1, 1).
fn point_at_zero(out: &mut [f64; 2]) -> Result<(), Refusal> {
    let far = 8.98846567431158e307;
    let knots = [-far, -far, -far, -far, far, far, far, far];
    let curve = control::build_control(&[1.0; 8], Some(&knots), false)?;
    point::evaluate(&curve, 0.0, 0, out)
}

fn main(rt: HostRuntime) -> io::Result<()> {
    let mut point = [1.0; 2];
    match point_at_zero(&mut point) {
        Ok(()) if point == [0.0; 2] => {
            println!(rt; "all control points are (1, 1), and the point at 0 is (0, 0)")
        }
        Ok(()) => println!(rt; "the point at 0 is not (0, 0)"),
        Err(_) => println!(rt; "the point at 0 is refused"),
    }
}
