// Writes the bits of the root of each double on standard input, which has a line of 16 upper-case hexadecimal digits for the bits of each. For 17 bytes
// that are no such line, or the bits of a NaN, it writes a question mark and goes on, so that no damage to the file passes unseen.
#![tactic(auto)]

ghost use Rattle.std.specs.Prelude.{◌≡◌, true, not};
ghost use Rattle.std.specs.Float.{binary64};
ghost use Rattle.std.specs.Float.Ieee.{nan_bits};

use std::io;

// Whether a pattern is not that of a NaN: only of such a pattern is a double made.
fn is_number(bits: u64) -> bool
    ensures { result ≡ not (nan_bits binary64 bits) }
{
    !(0x7ff0_0000_0000_0000 < bits % 0x8000_0000_0000_0000)
}

// The bits of the root of the double with the bits x.
fn root_of(x: u64) -> u64
    requires { not (nan_bits binary64 x) ≡ true }
{
    f64::to_bits(root::root(f64::from_bits(x)))
}

// Writes the root of the next line, and answers whether there was one. A line that is cut off ends in zeros here, and is none.
fn print_next(rt: &(impl Input + Print)) -> io::Result<bool> {
    let mut line = [0u8; 17];
    if programs::read_full(rt.reader(), &mut line)? == 0 {
        return Ok(false);
    }
    match sheet_read::read_line(&line, 16) {
        Some(x) if is_number(x) => println!(rt; "{:016x}", root_of(x))?,
        _ => println!(rt; "?")?,
    }
    Ok(true)
}

// A proved loop has to end and nothing says that the input does, so this one ends at a number of lines that no file reaches.
fn main(rt: HostRuntime) -> io::Result<()> {
    for _ in 0..0x100_0000_0000u64 {
        if !print_next(&rt)? {
            break;
        }
    }
    Ok(())
}
