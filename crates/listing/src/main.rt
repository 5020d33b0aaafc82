// Reads a scenario file from standard input and lists it. One byte more than a file may have is read, so a longer
// file is seen.
#![tactic(auto)]

use std::io;

fn main(rt: HostRuntime) -> io::Result<()> {
    let mut file = [0u8; rules::FILE_LIMIT + 1];
    let n = lines::read(&mut rt.stdin(), &mut file)?;
    lines::list(&file[..n], &mut rt.stdout())
}
