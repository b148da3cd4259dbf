// Both solves on systems of small whole numbers, in which pivots tie, and often between rows that an exchange has turned round, as no fit has them.
// tools/make-turned-rows, which moves whole rows and knows nothing of this program's solves, computes the expected lines and counts those ties.
#![tactic(auto)]

use partials::Dv;
use programs::Bits;
use std::io;

// Whole numbers below 2^31, each made of the one before.
#[derive(Drop)]
struct Draws {
    last: u64,
}

impl Draws {
    // A whole number from -2 to 2.
    fn small(&mut self) -> f64 {
        self.last = ((self.last % 2147483648) * 1103515245 + 12345) % 2147483648;
        let numbers = [-2.0, -1.0, 0.0, 1.0, 2.0];
        let k = self.last / 65536 % 5;
        numbers[k as usize]
    }

    // A count of 0 or 1.
    fn count(&mut self) -> u8 {
        u8::from(self.small() > 0.0)
    }
}

// Writes a value, how many partials it has, and the first of them.
fn print_value(rt: &impl Print, x: Dv) -> io::Result<()> {
    print!(rt; " {} {} {}", Bits(x.v), x.n, Bits(x.g[0]))
}

// Writes the answers of m rows of doubles that are drawn, in a line.
fn print_plain(rt: &impl Print, m: usize, draws: &mut Draws) -> io::Result<()> {
    let mut w = [0.0; 48];
    w.fill_with(|| draws.small());
    if let Some(solved) = solve::solve(&mut w, m) {
        for (x, y) in solved.xs.iter().zip(&solved.ys).take(6) {
            print!(rt; " {} {}", Bits(*x), Bits(*y))?;
        }
    }
    println!(rt)
}

// The same of m rows of values with up to one partial.
fn print_partials(rt: &impl Print, m: usize, draws: &mut Draws) -> io::Result<()> {
    let mut w = [0.0; 96];
    w.fill_with(|| draws.small());
    let mut ns = [0; 48];
    ns.fill_with(|| draws.count());
    if let Some(solved) = solve_partials::solve(&mut w, &mut ns, m, 1, 0) {
        for (x, y) in solved.xs.iter().zip(&solved.ys).take(4) {
            print_value(rt, *x)?;
            print_value(rt, *y)?;
        }
    }
    println!(rt)
}

// 32 systems by each solve, of each number of rows from 3 to 6.
fn main(rt: HostRuntime) -> io::Result<()> {
    let mut draws = Draws { last: 1 };
    for m in 3..7 {
        for _ in 0..32 {
            print_plain(&rt, m, &mut draws)?;
            print_partials(&rt, m, &mut draws)?;
        }
    }
    Ok(())
}
