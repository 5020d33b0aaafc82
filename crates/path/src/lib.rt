// The way from an issued certificate to its endorsement certificate, by the tables and the ledger that a run left.
#![tactic(auto)]

ghost use Rattle.std.specs.Prelude.{◌≡◌, [], ◌<◌, ◌≤◌, length, IfSome, OnOk, OnErr};
ghost use Rattle.rules.specs.Limits.{term_limit, path_places};
ghost use Rattle.rules.specs.Lent.{refusal, in_numbers, path_in_numbers};
ghost use Rattle.tables.specs.Columns.{one_more};
ghost use Rattle.path.specs.Climbing.{entry_in, TermEntriesInside, term_steps_in, term_parent_in, term_climbed};

use rules::{Entry, Refusal, Refused};
use tables::Tables;

// 1 where a list is too short for every path.
#[tactic(auto, unfolding(rules::specs::Lent::in_numbers))]
pub fn check_room(list: &[u16]) -> Result<(), Refused>
    ensures room { OnOk result (path_places ≤ length list.now) }
    ensures short { OnErr result (length list.now < path_places) }
    ensures number { OnErr result (in_numbers (λ _. []) result ≡ refusal 1 0) }
{
    if list.len() < rules::PATH_PLACES {
        return Err(Refused {
            refusal: Refusal::BufferShort,
            place: 0,
        });
    }
    Ok(())
}

// The place of a certificate's entry; none of what is no term.
#[tactic(auto, unfolding(crate::specs::Climbing::entry_in))]
fn entry_of(tables: &Tables, t: u16) -> Option<usize>
    ensures place { one_more result ≡ entry_in tables.now t }
    ensures few { IfSome result (λ _. t < term_limit) }
{
    let term = t as usize;
    if term < rules::TERM_LIMIT {
        tables.entry_of(term)
    } else {
        None
    }
}

// The steps of a certificate's path; 30 where it has no entry.
#[tactic(auto, unfolding(rules::specs::Lent::in_numbers))]
pub fn steps_of(tables: &Tables, t: u16) -> Result<u32, Refused>
    ensures { path_in_numbers result ≡ term_steps_in tables.now t }
{
    match entry_of(tables, t) {
        Some(_) => Ok(tables.depth_of(t as usize) as u32),
        None => Err(Refused {
            refusal: Refusal::NotInLedger,
            place: t as u32,
        }),
    }
}

// The parent by a certificate's entry; 0 where it has none.
fn parent_of(tables: &Tables, ledger: &[Entry], t: u16) -> u16
    requires { TermEntriesInside tables.now ledger.now }
    ensures { result ≡ term_parent_in tables.now ledger.now t }
{
    match entry_of(tables, t) {
        Some(place) => ledger::read_one(ledger, place).parent,
        None => 0,
    }
}

// A certificate goes to the first place of the list, and to each place after it the parent of the one before.
#[tactic(auto, using(crate::proofs::Climbing::term_climb_end))]
pub fn climb(tables: &Tables, ledger: &[Entry], list: &mut [u16], start: u16)
    requires { TermEntriesInside tables.now ledger.now }
    ensures { list.new ≡ term_climbed tables.now ledger.now (length list.old) start }
{
    let mut certificate = start;
    for place in list {
        *place = certificate;
        certificate = parent_of(tables, ledger, certificate);
    }
}
