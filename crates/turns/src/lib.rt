// A turn of the loop over commands.
#![tactic(auto)]

ghost use Rattle.std.specs.Prelude.{◌≡◌, cond, ◌<◌, ◌≤◌, ltb, length, take, drop};
ghost use Rattle.rules.specs.Codes.{number_in};
ghost use Rattle.rules.specs.Limits.{state_bytes, register_bytes};
ghost use Rattle.commands.specs.Standing.{memory};
ghost use Rattle.turns.specs.Turns.{starts, stepped, StepReady, TurnReady, Turns};

use ledger::Gained;
use loaded::Loaded;
use rules::Refusal;
use tables::Tables;

// How far a run is: how many commands are left at most, the place of the next, how many are done, accepted and refused,
// and the entries.
#[derive(Clone, Copy)]
pub struct Progress {
    pub left: usize,
    pub at: usize,
    pub done: usize,
    pub accepted: usize,
    pub refused: usize,
    pub issued: usize,
}

// What a turn answers: the entries that the ledger gains, and how far the run is then.
#[derive(Clone, Copy)]
pub struct Turned {
    pub gained: Gained,
    pub progress: Progress,
}

// What is found before the first command: how many parties and terms the file declares, and the place of the first
// command.
#[derive(Clone, Copy)]
pub struct Begun {
    pub parties: usize,
    pub terms: usize,
    pub first: usize,
}

// How many commands are left, of n at most, where the next record stands at a place of a file of so many bytes.
fn left_at(bytes: usize, place: usize, n: usize) -> usize
    ensures { result ≡ cond (ltb place bytes) n 0 }
{
    if place < bytes { n } else { 0 }
}

impl Progress {
    // Before the first of at most n commands.
    pub fn start(file: &[u8], begun: Begun, n: usize) -> Progress
        ensures { result ≡ starts file.now begun.first n }
    {
        Progress {
            left: left_at(file.len(), begun.first, n),
            at: begun.first,
            done: 0,
            accepted: 0,
            refused: 0,
            issued: 0,
        }
    }

    // One outcome more, and the place of the next record, in a file of so many bytes.
    fn step(&mut self, bytes: usize, decided: Result<(), Refusal>, gained: usize, next: usize)
        requires { StepReady self.old gained }
        ensures { self.new ≡ stepped bytes self.old (number_in decided) gained next }
    {
        self.left = left_at(bytes, next, self.left - 1);
        self.at = next;
        self.done += 1;
        match decided {
            Ok(()) => self.accepted += 1,
            Err(_) => self.refused += 1,
        }
        self.issued += gained;
    }
}

// Executes the next commands, up to and with the first desk command that is accepted, or all that are left. Answers the
// entries that the ledger gains by that one.
pub fn turn(
    file: &[u8],
    state: &mut [u8],
    registers: &mut [u8],
    tables: &mut Tables,
    outcomes: &mut [u8],
    from: Progress,
) -> Turned
    requires { TurnReady file.now (memory state.old registers.old) tables.old outcomes.old from }
    ensures { Turns file.now (memory state.old registers.old) tables.old outcomes.old from (memory state.new registers.new) tables.new outcomes.new result }
{
    let mut p = from;
    // The next command's place is known when this one is read, so there is no sequence to go through.
    while p.left != 0 {
        let at = p.at;
        let next = reader::next_place(file, at);
        let loaded = Loaded { file, tables };
        let decided = commands::decide(&loaded, state, registers, at);
        outcomes[p.done] = rules::outcome_byte(decided);
        if decided.is_ok() && commands::is_desk(file[at]) {
            let gained = commands::effect(file, state, tables, p.issued, at);
            p.step(file.len(), decided, gained.len(), next);
            return Turned {
                gained,
                progress: p,
            };
        }
        p.step(file.len(), decided, 0, next);
    }
    Turned {
        gained: Gained::new(),
        progress: p,
    }
}

// The same in a lent state and registers of any length.
pub fn turn_within(
    file: &[u8],
    state: &mut [u8],
    registers: &mut [u8],
    tables: &mut Tables,
    outcomes: &mut [u8],
    from: Progress,
) -> Turned
    requires { (state_bytes ≤ length state.old) × (register_bytes ≤ length registers.old) × TurnReady file.now (memory (take state_bytes state.old) (take register_bytes registers.old)) tables.old outcomes.old from }
    ensures { Turns file.now (memory (take state_bytes state.old) (take register_bytes registers.old)) tables.old outcomes.old from (memory (take state_bytes state.new) (take register_bytes registers.new)) tables.new outcomes.new result × (drop state_bytes state.new ≡ drop state_bytes state.old) × (drop register_bytes registers.new ≡ drop register_bytes registers.old) }
{
    turn(
        file,
        &mut state[..rules::STATE_BYTES],
        &mut registers[..rules::REGISTER_BYTES],
        tables,
        outcomes,
        from,
    )
}
