// The loop over commands on the lent ledger: a turn each, and what it gains is appended.
#![tactic(auto)]

ghost use Rattle.command_loop.specs.Recorded.{CommandsReady, Recorded};

use rules::Entry;
use tables::Tables;
use turns::{Begun, Progress};

// Executes at most n commands after what was found before the first.
#[tactic(auto, using(crate::proofs::Keeping::keeps_ready, crate::proofs::Keeping::keeps_fits, crate::proofs::Keeping::keeps_less))]
pub fn run_commands(
    file: &[u8],
    state: &mut [u8],
    ledger: &mut [Entry],
    outcomes: &mut [u8],
    registers: &mut [u8],
    tables: &mut Tables,
    begun: Begun,
    n: usize,
) -> Progress
    requires { CommandsReady file.now state.old ledger.old outcomes.old registers.old tables.old begun }
    ensures { Recorded file.now state.old ledger.old outcomes.old registers.old begun n state.new ledger.new outcomes.new registers.new tables.new result }
{
    let mut p = Progress::start(file, begun, n);
    // A turn says how many are left, so there is no sequence to go through.
    while p.left != 0 {
        let turned = turns::turn_within(file, state, registers, tables, outcomes, p);
        ledger::append_gained(ledger, p.issued, &turned.gained);
        p = turned.progress;
    }
    p
}
