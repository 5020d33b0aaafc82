// The listing of a file, in a buffer and to a writer, and the reading of a file.
#![tactic(auto)]

ghost use Rattle.std.specs.Prelude.{◌<◌, ◌≤◌, length, take, IfOk, OnOk};
ghost use Rattle.std.specs.Io.KnownBytes.{Appends, Consumes, IsAtEnd};
ghost use Rattle.rules.specs.Listing.{listing};
ghost use Rattle.lister.specs.Text.{listing_bytes, Listed};

use rules::Entry;
use std::io;
use std::io::{Read, Write};
use tables::Tables;

// Fills a buffer with the listing of a file. Answers how many bytes it has.
pub fn list_into(file: &[u8], out: &mut [u8]) -> usize
    requires { listing_bytes ≤ length out.old }
    ensures { Listed (listing file.now) out.old out.new result }
{
    let mut state = [0u8; rules::STATE_BYTES];
    let mut ledger = [Entry::default(); rules::TERM_LIMIT];
    let mut outcomes = [0u8; rules::COMMAND_LIMIT];
    let mut registers = [0u8; rules::REGISTER_BYTES];
    let mut tables = Tables::new();
    let done = engine::run(
        file,
        file.len(),
        &mut state,
        &mut ledger,
        &mut outcomes,
        &mut registers,
        &mut tables,
    );
    match done {
        Ok(done) => {
            let p = done.progress;
            let at = lister::refusals_into(out, 0, &outcomes, p.accepted + p.refused);
            let next = lister::entries_into(&ledger, out, at, p.issued);
            lister::total_line(out, next, p.accepted as u32, p.refused as u32, p.issued)
        }
        Err(r) => lister::fault_line(out, 0, r.refusal.number() as u32, r.place),
    }
}

// Writes the listing of a file.
pub fn list<W: Write>(file: &[u8], to: &mut W) -> io::Result<()>
    ensures { OnOk result (Appends (W.contents to.old) (W.contents to.new) (listing file.now)) }
{
    let mut out = [0u8; lister::LISTING_BYTES];
    let n = list_into(file, &mut out);
    to.write_all(&out[..n])
}

// Reads until a buffer is full or the input ends. Answers how many bytes it put at the front of the buffer.
pub fn read<R: Read>(from: &mut R, file: &mut [u8]) -> io::Result<usize>
    ensures inside { IfOk result (λ n. n ≤ length file.new) }
    ensures bytes { IfOk result (λ n. Consumes (R.remaining from.old) (R.remaining from.new) (take n file.new)) }
    ensures end { IfOk result (λ n. n < length file.new → IsAtEnd (R.remaining from.new)) }
{
    let mut at = 0;
    // How far to go on is what a read gives.
    while at < file.len() {
        let n = from.read(&mut file[at..])?;
        if n == 0 {
            return Ok(at);
        }
        at += n;
    }
    Ok(at)
}
