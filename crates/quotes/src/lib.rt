// 44 and 45, the device commands on registers: what each decides and leaves.
#![tactic(auto)]

ghost use Rattle.std.specs.Prelude.{◌≡◌, ◌<◌, ◌≤◌, length, OnOk, OnErr};
ghost use Rattle.rules.specs.Limits.{register_bytes};
ghost use Rattle.rules.specs.File.{extend, quote};
ghost use Rattle.theorems.proofs.Loading.{Wellformed};
ghost use Rattle.learning.specs.There.{kind_there};
ghost use Rattle.lookup.specs.There.{command_there};
ghost use Rattle.lookup.specs.Commands.{CommandAt};
ghost use Rattle.registers.specs.View.{registers_in};
ghost use Rattle.loaded.specs.Loaded.{file_in, Holds, DecidesBeside, LeavesBeside};

use loaded::Loaded;
use rules::{Attributes, Refusal, Role, ensure};

// 44 Extend: the pair's second term known, its first what the register shows.
#[tactic(auto, using(crate::proofs::Outcomes::extend_chain, loaded::proofs::Here::here))]
pub fn decide_extend(
    loaded: &Loaded,
    state: &[u8],
    registers: &[u8],
    party: usize,
    i: usize,
    r: usize,
) -> Result<(), Refusal>
    requires { Holds loaded.now.file.now state.now
        × Wellformed (file_in loaded.now.file.now) (extend party i r)
        × (length registers.now ≡ register_bytes) }
    ensures { DecidesBeside loaded.now.file.now state.now (registers_in registers.now) (extend party i r) result }
{
    ensure(loaded.is_role(party, Role::Device), Refusal::RoleForbids)?;
    let pair = loaded.pair(loaded.hashed_term(r));
    ensure(
        state::knows(state, party, pair.right),
        Refusal::InputUnknown,
    )?;
    ensure(
        registers::shown(registers, party, i) == pair.left,
        Refusal::RegisterShowsOther,
    )
}

// 45 Quote: the value is what that register of this party shows.
#[tactic(auto, using(crate::proofs::Outcomes::quote_chain, loaded::proofs::Here::here))]
pub fn decide_quote(
    loaded: &Loaded,
    state: &[u8],
    registers: &[u8],
    party: usize,
    r: usize,
) -> Result<(), Refusal>
    requires { Holds loaded.now.file.now state.now
        × Wellformed (file_in loaded.now.file.now) (quote party r)
        × (length registers.now ≡ register_bytes) }
    ensures { DecidesBeside loaded.now.file.now state.now (registers_in registers.now) (quote party r) result }
{
    ensure(loaded.is_role(party, Role::Device), Refusal::RoleForbids)?;
    let signature = loaded.signature(r);
    let quote = loaded.quote(signature.message);
    ensure(
        state::knows(state, party, quote.number),
        Refusal::InputUnknown,
    )?;
    ensure(
        state::in_table(state, party, signature.key),
        Refusal::HalfNotHeld,
    )?;
    ensure(
        loaded.key_has(signature.key, Attributes::SIGN),
        Refusal::AttributesForbid,
    )?;
    ensure(
        loaded.key_has(signature.key, Attributes::RESTRICTED),
        Refusal::AttributesForbid,
    )?;
    ensure(
        registers::shown(registers, party, quote.register) == quote.value,
        Refusal::RegisterShowsOther,
    )
}

// Executes the 44 at a place: where it is accepted, the register shows the hash.
#[tactic(auto, using(crate::proofs::Effects::extends))]
fn execute_extend(
    loaded: &Loaded,
    state: &[u8],
    registers: &mut [u8],
    at: usize,
) -> Result<(), Refusal>
    requires { Holds loaded.now.file.now state.now
        × CommandAt (Wellformed (file_in loaded.now.file.now)) loaded.now.file.now at
        × (kind_there loaded.now.file.now at ≡ 0x44)
        × (length registers.old ≡ register_bytes) }
    ensures decided { DecidesBeside loaded.now.file.now state.now (registers_in registers.old) (command_there loaded.now.file.now at) result }
    ensures left { OnOk result (LeavesBeside loaded.now.file.now state.now state.now (registers_in registers.old) (registers_in registers.new) (command_there loaded.now.file.now at)) }
    ensures kept { OnErr result (registers.new ≡ registers.old) }
{
    let party = loaded.file[at + 1] as usize;
    let i = loaded.file[at + 2] as usize;
    let r = records::word_at(loaded.file, at + 3) as usize;
    decide_extend(loaded, state, registers, party, i, r)?;
    registers::show(registers, party, i, r);
    Ok(())
}

// Executes the 45 at a place: where it is accepted, the party learns the signature.
#[tactic(auto, using(crate::proofs::Effects::quotes))]
fn execute_quote(
    loaded: &Loaded,
    state: &mut [u8],
    registers: &[u8],
    at: usize,
) -> Result<(), Refusal>
    requires { Holds loaded.now.file.now state.old
        × CommandAt (Wellformed (file_in loaded.now.file.now)) loaded.now.file.now at
        × (kind_there loaded.now.file.now at ≡ 0x45)
        × (length registers.now ≡ register_bytes) }
    ensures decided { DecidesBeside loaded.now.file.now state.old (registers_in registers.now) (command_there loaded.now.file.now at) result }
    ensures left { OnOk result (LeavesBeside loaded.now.file.now state.old state.new (registers_in registers.now) (registers_in registers.now) (command_there loaded.now.file.now at)) }
    ensures kept { OnErr result (state.new ≡ state.old) }
{
    let party = loaded.file[at + 1] as usize;
    let r = records::word_at(loaded.file, at + 2) as usize;
    decide_quote(loaded, state, registers, party, r)?;
    loaded.learn(state, party, r);
    Ok(())
}

// Executes the 44 or 45 at a place: what it decides, and what it leaves where it is accepted.
// A refused one leaves both buffers as they were.
pub fn execute(
    loaded: &Loaded,
    state: &mut [u8],
    registers: &mut [u8],
    at: usize,
) -> Result<(), Refusal>
    requires { Holds loaded.now.file.now state.old
        × CommandAt (Wellformed (file_in loaded.now.file.now)) loaded.now.file.now at
        × (0x44 ≤ kind_there loaded.now.file.now at)
        × (length registers.old ≡ register_bytes) }
    ensures decided { DecidesBeside loaded.now.file.now state.old (registers_in registers.old) (command_there loaded.now.file.now at) result }
    ensures left { OnOk result (LeavesBeside loaded.now.file.now state.old state.new (registers_in registers.old) (registers_in registers.new) (command_there loaded.now.file.now at)) }
    ensures kept { OnErr result ((state.new ≡ state.old) × (registers.new ≡ registers.old)) }
{
    if loaded.file[at] == 0x44 {
        execute_extend(loaded, state, registers, at)
    } else {
        execute_quote(loaded, state, registers, at)
    }
}
