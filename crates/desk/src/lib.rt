// Desk commands, 3E to 43: what the command at a place decides and leaves.
#![tactic(auto)]

ghost use Rattle.std.specs.Prelude.{◌≡◌, ◌+◌, ◌<◌, length};
ghost use Rattle.rules.specs.Record.{word};
ghost use Rattle.theorems.proofs.Loading.{Wellformed};
ghost use Rattle.learning.specs.There.{kind_there};
ghost use Rattle.lookup.specs.There.{command_there};
ghost use Rattle.lookup.specs.Commands.{CommandAt};
ghost use Rattle.loaded.specs.Loaded.{file_in, Holds};
ghost use Rattle.loaded.specs.Entries.{DecidesListed, DeskLeaves};
ghost use Rattle.requests.specs.Formed.{OpenRequested};
ghost use Rattle.desk.specs.Dispatch.{SomeLedger, DeskEffectReady};

use ledger::Gained;
use loaded::Loaded;
use rules::Refusal;
use tables::Tables;

// The two terms that a 3E names, or a 40, 41 or 42: a request, and a credential or a certificate.
fn two_terms(file: &[u8], at: usize) -> (usize, usize)
    requires { at + 5 < length file.now }
    ensures first { result.0 ≡ word file.now (at + 2) }
    ensures second { result.1 ≡ word file.now (at + 4) }
{
    (
        records::word_at(file, at + 2) as usize,
        records::word_at(file, at + 4) as usize,
    )
}

// What the desk command at a place decides, by its kind, a byte of the file.
pub fn decide(loaded: &Loaded, state: &[u8], at: usize) -> Result<(), Refusal>
    requires { Holds loaded.now.file.now state.now × CommandAt (Wellformed (file_in loaded.now.file.now)) loaded.now.file.now at × ((0x3D < kind_there loaded.now.file.now at) × (kind_there loaded.now.file.now at < 0x44)) × SomeLedger loaded.now.file.now state.now loaded.now.tables.now × OpenRequested loaded.now.file.now state.now }
    ensures { DecidesListed loaded.now.file.now state.now loaded.now.tables.now (command_there loaded.now.file.now at) result }
{
    let file = loaded.file;
    let kind = file[at];
    let party = file[at + 1] as usize;
    match kind {
        0x3E => {
            let (q, r) = two_terms(file, at);
            challenge::decide(loaded, state, party, q, r)
        }
        0x3F => {
            let other = file[at + 2] as usize;
            let c = records::word_at(file, at + 3) as usize;
            let r = records::word_at(file, at + 5) as usize;
            issuance::decide_issue_iak(loaded, state, party, other, c, r)
        }
        0x43 => together::decide(loaded, state, at),
        _ => {
            let (q, r) = two_terms(file, at);
            issuance::decide_issue(loaded, state, rules::family_of(kind), party, q, r)
        }
    }
}

// What the desk command at a place leaves, where it is accepted. Answers the entries that the ledger gains.
pub fn effect(
    file: &[u8],
    state: &mut [u8],
    tables: &mut Tables,
    entries: usize,
    at: usize,
) -> Gained
    requires { DeskEffectReady file.now state.old tables.old entries at }
    ensures { DeskLeaves file.now state.old tables.old entries (command_there file.now at) state.new tables.new result.items }
{
    let kind = file[at];
    let party = file[at + 1] as usize;
    let mut gained = Gained::new();
    match kind {
        0x3E => {
            let (q, r) = two_terms(file, at);
            challenge::effect(&Loaded { file, tables }, state, party, q, r);
        }
        0x3F => {
            let c = records::word_at(file, at + 3) as usize;
            let r = records::word_at(file, at + 5) as usize;
            gained.push(issuance::effect_issue_iak(file, state, tables, entries, party, c, r));
        }
        0x43 => return together::effect(file, state, tables, entries, at),
        _ => {
            let (q, r) = two_terms(file, at);
            gained.push(issuance::effect_issue(file, state, tables, entries, party, q, r));
        }
    }
    gained
}
