// Run on a lent slice of entries: what is found before the first command, and the loop over commands.
#![tactic(auto)]

ghost use Rattle.std.specs.Prelude.{◌≡◌, IfOk};
ghost use Rattle.tables.specs.Columns.{EmptyTables};
ghost use Rattle.engine.specs.Runs.{lent_with};
ghost use Rattle.engine.specs.Raw.{Ran, Stood};

use rules::{Entry, Refused};
use tables::Tables;
use turns::{Begun, Progress};

// What a run found before its first command, and how far it went.
#[derive(Clone, Copy)]
pub struct Finished {
    pub begun: Begun,
    pub progress: Progress,
}

// Loads a file and executes its first n commands, or all if fewer, on lent buffers of any length; the tables, empty
// before, are left beside them.
pub fn run(
    file: &[u8],
    n: usize,
    state: &mut [u8],
    ledger: &mut [Entry],
    outcomes: &mut [u8],
    registers: &mut [u8],
    tables: &mut Tables,
) -> Result<Finished, Refused>
    requires { EmptyTables tables.old }
    ensures rules { Ran file.now n (lent_with state.old ledger.old outcomes.old registers.old) (lent_with state.new ledger.new outcomes.new registers.new) result }
    ensures stands { IfOk result (Stood file.now n (lent_with state.old ledger.old outcomes.old registers.old) (lent_with state.new ledger.new outcomes.new registers.new) tables.new) }
{
    let begun = beginning::begin(file, state, ledger, outcomes, registers, tables)?;
    let progress = command_loop::run_commands(
        file, state, ledger, outcomes, registers, tables, begun, n,
    );
    Ok(Finished { begun, progress })
}
