// Writes a curve's point and its derivatives up to the third at 41 parameters, each double by its bits. The document's own numbers
// are small binary fractions, on which a product fused into a sum rounds to the same bits; these are not, and tools/make-unfused,
// which computes the expected lines by the original, counts how many a fused operation would change.
#![tactic(auto)]

use curve::Curve;
use programs::Bits;
use refusal::Refusal;
use std::io;

// The control points.
const CONTROL: [[f64; 2]; 6] = [
    [0.1, 0.7],
    [1.3, 2.9],
    [2.3, -1.1],
    [3.7, 0.3],
    [4.9, 3.1],
    [6.1, -0.9],
];

// Writes that there was a refusal: there is to be none.
fn print_refusal(rt: &impl Print, r: Refusal) -> io::Result<()> {
    println!(rt; "refused {}", r.number())
}

// Writes the orders 0 to 3 of the curve at t, a line each.
fn print_at(rt: &impl Print, curve: &Curve, t: f64) -> io::Result<()> {
    let mut orders = [[0.0; 2]; 4];
    if let Err(r) = point::evaluate(curve, t, 3, orders.as_flattened_mut()) {
        return print_refusal(rt, r);
    }
    for [x, y] in orders {
        println!(rt; "{} {}", Bits(x), Bits(y))?;
    }
    Ok(())
}

// Writes the curve at k/37 for k from -2 to 38: from before its start to past its end.
fn print_all(rt: &impl Print, curve: &Curve) -> io::Result<()> {
    for k in -2..39 {
        print_at(rt, curve, f64::from(k) / 37.0)?;
    }
    Ok(())
}

fn main(rt: HostRuntime) -> io::Result<()> {
    match control::build_control(CONTROL.as_flattened(), None, false) {
        Ok(curve) => print_all(&rt, &curve),
        Err(r) => print_refusal(&rt, r),
    }
}
