// Reads a sheet from standard input and writes its answer to standard output. All that it computes is `sheet_rooms::reply`.
#![tactic(auto)]

use std::io;

fn main(rt: HostRuntime) -> io::Result<()> {
    let mut room = [0u8; 20878];
    let n = programs::read_full(rt.reader(), &mut room)?;
    rt.write_all(sheet_rooms::reply(&room, n).text())
}
