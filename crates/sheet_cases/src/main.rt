// Answers the recorded sheets on standard input, each answer after a line with the sheet's number. Before each sheet stands a line with its length, 8
// upper-case hexadecimal digits. Where the file is cut off, or there is no such line, `damaged` is written, and nothing more.
#![tactic(auto)]

use std::io;

// Reads a sheet of n bytes and writes its answer. False where there is no room for it, or the input ends before.
fn print_read(rt: &(impl Input + Print), n: usize) -> io::Result<bool> {
    let mut room = [0u8; 20878];
    if n > room.len() || programs::read_full(rt.reader(), &mut room[..n])? != n {
        return Ok(false);
    }
    rt.write_all(sheet_rooms::reply(&room, n).text())?;
    Ok(true)
}

// Writes the next sheet's number and its answer, and answers whether there may be more.
fn print_next(rt: &(impl Input + Print), number: u64) -> io::Result<bool> {
    let mut line = [0u8; 9];
    if programs::read_full(rt.reader(), &mut line)? == 0 {
        return Ok(false);
    }
    println!(rt; "# {number}")?;
    if let Some(n) = sheet_read::read_line(&line, 8)
        && print_read(rt, n as usize)?
    {
        return Ok(true);
    }
    println!(rt; "damaged")?;
    Ok(false)
}

// A proved loop has to end and nothing says that the input does, so this one ends at a number that no file reaches.
fn main(rt: HostRuntime) -> io::Result<()> {
    for number in 1..0x100_0000_0000u64 {
        if !print_next(&rt, number)? {
            break;
        }
    }
    Ok(())
}
