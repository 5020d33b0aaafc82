// The listing as bytes.
#![tactic(auto)]

ghost use Rattle.std.specs.Prelude.{◌≡◌, [], ◌∷◌, ◌+◌, ◌*◌, ◌<◌, ◌≤◌, length, take};
ghost use Rattle.rules.specs.Limits.{command_limit, term_limit};
ghost use Rattle.rules.specs.Listing.{decimal, line, refusal_lines, entry_lines};
ghost use Rattle.decimal.specs.Text.{Room, Written};
ghost use Rattle.lister.specs.Text.{refusal_bytes, entry_bytes, total_bytes, fault_bytes};
ghost use Rattle.lister.specs.Parts.{outcome_line, entry_line};

use rules::Entry;

// Bytes that are enough for the listing of every file.
pub const LISTING_BYTES: usize = rules::COMMAND_LIMIT * 11 + rules::TERM_LIMIT * 20 + 29;

// A number with a space in front.
fn number_into(out: &mut [u8], at: usize, x: u64) -> usize
    requires { Room out.old at (32 ∷ decimal x) }
    ensures { Written out.old at (32 ∷ decimal x) out.new result }
{
    let next = decimal::byte_into(out, at, b' ');
    decimal::decimal_into(out, next, x)
}

// A line: its letter and its numbers.
fn line_into(out: &mut [u8], at: usize, letter: u8, numbers: &[u64]) -> usize
    requires { Room out.old at (line letter numbers.now) }
    ensures { Written out.old at (line letter numbers.now) out.new result }
{
    let mut next = decimal::byte_into(out, at, letter);
    for x in numbers {
        next = number_into(out, next, *x);
    }
    decimal::byte_into(out, next, b'\n')
}

// "R ordinal number".
#[tactic(auto, using(crate::proofs::Room::refusal_short))]
fn refusal_line(out: &mut [u8], at: usize, ordinal: usize, number: u8) -> usize
    requires { (ordinal < command_limit) × (at + refusal_bytes ≤ length out.old) }
    ensures written { Written out.old at (line 0x52 (ordinal ∷ number ∷ [])) out.new result }
    ensures upper_bound { result ≤ at + refusal_bytes }
{
    line_into(out, at, b'R', &[ordinal as u64, number as u64])
}

// "I certificate parent depth".
#[tactic(auto, using(crate::proofs::Room::entry_short))]
pub fn ledger_line(out: &mut [u8], at: usize, e: Entry) -> usize
    requires { at + entry_bytes ≤ length out.old }
    ensures written { Written out.old at (entry_line e) out.new result }
    ensures upper_bound { result ≤ at + entry_bytes }
{
    line_into(
        out,
        at,
        b'I',
        &[e.certificate as u64, e.parent as u64, e.depth as u64],
    )
}

// "T accepted refused issued".
#[tactic(auto, using(crate::proofs::Room::total_short))]
pub fn total_line(out: &mut [u8], at: usize, accepted: u32, refused: u32, issued: usize) -> usize
    requires { (issued ≤ term_limit) × (at + total_bytes ≤ length out.old) }
    ensures written { Written out.old at (line 0x54 (accepted ∷ refused ∷ issued ∷ [])) out.new result }
    ensures upper_bound { result ≤ at + total_bytes }
{
    line_into(
        out,
        at,
        b'T',
        &[accepted as u64, refused as u64, issued as u64],
    )
}

// "F number place".
#[tactic(auto, using(crate::proofs::Room::fault_short))]
pub fn fault_line(out: &mut [u8], at: usize, number: u32, place: u32) -> usize
    requires { at + fault_bytes ≤ length out.old }
    ensures written { Written out.old at (line 0x46 (number ∷ place ∷ [])) out.new result }
    ensures upper_bound { result ≤ at + fault_bytes }
{
    line_into(out, at, b'F', &[number as u64, place as u64])
}

// The line of a command's outcome, if it was refused.
#[tactic(auto, using(crate::proofs::Parts::no_line, crate::proofs::Parts::some_line))]
fn outcome_line(out: &mut [u8], at: usize, ordinal: usize, number: u8) -> usize
    requires { (ordinal < command_limit) × (at + refusal_bytes ≤ length out.old) }
    ensures written { Written out.old at (outcome_line ordinal number) out.new result }
    ensures upper_bound { result ≤ at + refusal_bytes }
{
    if number == 0 {
        return at;
    }
    refusal_line(out, at, ordinal, number)
}

// The lines of the refused among the first n commands.
pub fn refusals_into(out: &mut [u8], at: usize, outcomes: &[u8], n: usize) -> usize
    requires { (n ≤ length outcomes.now) × (n ≤ command_limit) × (at + refusal_bytes * n ≤ length out.old) }
    ensures written { Written out.old at (refusal_lines 0 (take n outcomes.now)) out.new result }
    ensures upper_bound { result ≤ at + refusal_bytes * n }
{
    let mut next = at;
    for (i, number) in outcomes[..n].iter().enumerate() {
        next = outcome_line(out, next, i, *number);
    }
    next
}

// The lines of the first entries of a ledger.
pub fn entries_into(ledger: &[Entry], out: &mut [u8], at: usize, issued: usize) -> usize
    requires { (issued ≤ length ledger.now) × (at + entry_bytes * issued ≤ length out.old) }
    ensures { Written out.old at (entry_lines (take issued ledger.now)) out.new result × (result ≤ at + entry_bytes * issued) }
{
    let mut next = at;
    for i in 0..issued {
        next = ledger_line(out, next, ledger::read_one(ledger, i));
    }
    next
}
