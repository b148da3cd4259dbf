// What the programs share: how a room of bytes is filled from a reader, and how a double is printed by its bits.
#![tactic(auto)]

ghost use Rattle.std.specs.Prelude.{◌≡◌, Some, IfOk, IfSome, min, length};
ghost use Rattle.programs.specs.Bits.{bits_text};

use std::io::Read;
use std::{fmt, io};

// Reads until the room is full or the input ends, and answers how many bytes it read.
pub fn read_full<R: Read + Drop>(reader: R, room: &mut [u8]) -> io::Result<usize>
    ensures { IfOk result (λ n. IfSome (R.Read.remaining reader) (λ input. n ≡ min (length input) (length room.old))) }
{
    let limit = room.len() as u64;
    let mut rest = room;
    let n = io::copy(&mut reader.take(limit), &mut rest)?;
    Ok(n as usize)
}

// A double that is printed by its bits, or by a word for a NaN, which has none of its own.
#[derive(Clone, Copy)]
pub struct Bits(pub f64);

impl fmt::Display for Bits {
    ghost output = { λ x. Some (bits_text x.0) };

    fn fmt<W: fmt::Write>(&self, f: &mut fmt::Formatter<W>) -> fmt::Result {
        let x = self.0;
        if x.is_nan() {
            return write!(f, "nan");
        }
        let bits = x.to_bits();
        write!(f, "{bits:016x}")
    }
}
