// The command at a place of a loaded file: what it decides, and what it leaves.
#![tactic(auto)]

ghost use Rattle.std.specs.Prelude.{◌≡◌, length};
ghost use Rattle.theorems.proofs.Loading.{Wellformed};
ghost use Rattle.lookup.specs.Commands.{CommandAt};
ghost use Rattle.loaded.specs.Loaded.{file_in};
ghost use Rattle.commands.specs.Standing.{memory, desk_kind, AnyStands, Decided, AnyAccepted, AllDone};

use ledger::Gained;
use loaded::Loaded;
use rules::Refusal;
use tables::Tables;

// Whether a kind is that of a desk command, 3E to 43.
pub fn is_desk(kind: u8) -> bool
    ensures { result ≡ desk_kind kind }
{
    0x3D < kind && kind < 0x44
}

// The outcome of the command at a place. A device command is executed; of a desk command nothing is done yet.
pub fn decide(
    loaded: &Loaded,
    state: &mut [u8],
    registers: &mut [u8],
    at: usize,
) -> Result<(), Refusal>
    requires { AnyStands loaded.now.file.now (memory state.old registers.old) loaded.now.tables.now × CommandAt (Wellformed (file_in loaded.now.file.now)) loaded.now.file.now at }
    ensures { Decided loaded.now.file.now (memory state.old registers.old) loaded.now.tables.now at (memory state.new registers.new) result }
{
    let kind = loaded.file[at];
    if kind < 0x3E {
        return device::execute(loaded, state, at);
    }
    if kind < 0x44 {
        return desk::decide(loaded, state, at);
    }
    quotes::execute(loaded, state, registers, at)
}

// Does the accepted desk command at a place, where the ledger has so many entries. Answers the entries that the ledger
// gains.
pub fn effect(
    file: &[u8],
    state: &mut [u8],
    tables: &mut Tables,
    entries: usize,
    at: usize,
) -> Gained
    requires { AnyAccepted file.now state.old tables.old entries at }
    ensures { AllDone file.now state.old tables.old entries at state.new tables.new result.items }
{
    desk::effect(file, state, tables, entries, at)
}
