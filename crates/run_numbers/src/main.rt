// The rules' numbers to check by that are not starred, run: the closest parameters of A and B, the orders that are accepted, curves that are
// accepted and refused, and lengths that are stored. Each line has what is asked and the answer; `stdout` has the rules' answers.
#![tactic(auto)]

use curve::Curve;
use knots::Form;
use programs::Bits;
use refusal::Refusal;
use std::io;

// (0,0), (0,8), (8,8), (8,0)
const A: [f64; 8] = [0.0, 0.0, 0.0, 8.0, 8.0, 8.0, 8.0, 0.0];

// (0,0), (1,2), (2,4), (3,6)
const B: [f64; 8] = [0.0, 0.0, 1.0, 2.0, 2.0, 4.0, 3.0, 6.0];

// ---- what is asked

// The curve with these control points over uniform knots.
fn uniform(points: &[f64; 8]) -> Result<Curve, Refusal> {
    build::build(Form::Control, points, None, &mut [])
}

// The parameter of the point of that curve that is closest to (x, y).
fn closest_to(points: &[f64; 8], x: f64, y: f64) -> Result<f64, Refusal> {
    closest::closest(&uniform(points)?, x, y)
}

// Whether an order is accepted.
fn order_of_a(order: usize) -> Result<(), Refusal> {
    let mut out = [0.0; 12];
    point::evaluate(&uniform(&A)?, 0.25, order, &mut out)
}

// Whether a curve with these control points is accepted.
fn control(points: &[f64; 8]) -> Result<(), Refusal> {
    uniform(points)?;
    Ok(())
}

// Whether a fit through these points is accepted.
fn fit(points: &[f64]) -> Result<(), Refusal> {
    let mut work = [0.0; 35];
    build::build(Form::Fit, points, None, &mut work)?;
    Ok(())
}

// Whether the residuals of a point held on the curve through these two points are answered: they store no length.
fn held(points: &[f64]) -> Result<(), Refusal> {
    let mut work = [0.0; 192];
    let mut counts = [0u8; 24];
    let mut residuals = [0.0; 3];
    let mut rows = [0.0; 21];
    residual::residual(
        Form::Fit,
        points,
        None,
        0.0,
        0.0,
        0.5,
        &mut work,
        &mut counts,
        &mut residuals,
        &mut rows,
    )
}

// The length of A.
fn length_of_a() -> Result<f64, Refusal> {
    measure::length(&uniform(&A)?)
}

// The length of A with a control point moved to (0, 4).
fn length_moved(index: usize) -> Result<f64, Refusal> {
    let moved = moving::move_point(&uniform(&A)?, index, 0.0, 4.0)?;
    measure::length(&moved)
}

// What is answered for the length of this curve, where it stores another.
fn length_stored(points: &[f64; 8], length: f64) -> Result<f64, Refusal> {
    let curve = uniform(points)?;
    measure::length(&Curve { length, ..curve })
}

// ---- what is written

// A word, and the number of a refusal.
fn print_verdict(rt: &impl Print, what: &str, answer: Result<(), Refusal>) -> io::Result<()> {
    match answer {
        Ok(()) => println!(rt; "{what}: accepted"),
        Err(r) => println!(rt; "{what}: refused {}", r.number()),
    }
}

// The number, or that of a refusal.
fn print_number(rt: &impl Print, what: &str, answer: Result<f64, Refusal>) -> io::Result<()> {
    match answer {
        Ok(x) => println!(rt; "{what}: {}", Bits(x)),
        Err(r) => println!(rt; "{what}: refused {}", r.number()),
    }
}

// The closest parameters, and the orders.
fn print_questions(rt: &impl Print) -> io::Result<()> {
    let u = 2.409919865102884e-181;
    let questions = [
        ("B closest to (-6,0)", B, -6.0, 0.0),
        ("B closest to (1.5,3)", B, 1.5, 3.0),
        ("A closest to (4,0)", A, 4.0, 0.0),
        ("A closest to (1e200,4)", A, 1e200, 4.0),
        (
            "B times 2^-600 closest to (1.5,3) times 2^-600",
            B.map(|x| x * u),
            1.5 * u,
            3.0 * u,
        ),
    ];
    for (what, points, x, y) in questions {
        print_number(rt, what, closest_to(&points, x, y))?;
    }
    print_verdict(rt, "order 4", order_of_a(4))?;
    print_verdict(rt, "order 5", order_of_a(5))
}

// Curves that are accepted, and refused.
fn print_builds(rt: &impl Print) -> io::Result<()> {
    let there_and_back = [0.0, 0.0, 1e200, 0.0, 0.0, 0.0];
    print_verdict(rt, "fit (0,0),(1e200,0),(0,0)", fit(&there_and_back))?;
    let there = [0.0, 0.0, 1e200, 0.0];
    print_verdict(rt, "fit (0,0),(1e200,0)", fit(&there))?;
    print_verdict(rt, "a point held on it", held(&there))?;
    let long = [0.0, 0.0, 1.35e154, 0.0, 0.0, 0.0, 0.0, 0.0];
    print_verdict(rt, "a control edge of 1.35e154", control(&long))?;
    let shorter = [0.0, 0.0, 1.34e154, 0.0, 0.0, 0.0, 0.0, 0.0];
    print_verdict(rt, "a control edge of 1.34e154", control(&shorter))
}

// Lengths that are stored.
fn print_lengths(rt: &impl Print) -> io::Result<()> {
    let last_bit = length_stored(&A, 24.000000000000004);
    let minus_zero = length_stored(&[0.0; 8], -0.0);
    print_number(rt, "A's length", length_of_a())?;
    print_number(rt, "A's length, point 0 moved to (0,4)", length_moved(0))?;
    print_number(rt, "A's length, point 4 moved to (0,4)", length_moved(4))?;
    print_number(rt, "A's length, stored with another last bit", last_bit)?;
    print_number(rt, "four points at (0,0), -0.0 stored", minus_zero)
}

fn main(rt: HostRuntime) -> io::Result<()> {
    print_questions(&rt)?;
    print_builds(&rt)?;
    print_lengths(&rt)
}
