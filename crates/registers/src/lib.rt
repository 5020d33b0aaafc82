// The registers of every party's TPM in lent bytes: a reader, a writer, and what they show before the first command.
#![tactic(auto)]

ghost use Rattle.std.specs.Prelude.{◌≡◌, ℕ, ◌+◌, ◌<◌, length};
ghost use Rattle.rules.specs.Limits.{party_limit, register_count, register_bytes};
ghost use Rattle.rules.specs.State.{start_registers};
ghost use Rattle.state.proofs.Exact.{Bytes};
ghost use Rattle.loaded.specs.Loaded.{file_in};
ghost use Rattle.registers.specs.View.{register_at, registers_in, shown_at};
ghost use Rattle.registers.specs.Starting.{shown_by_devices, start_from};

use loaded::Loaded;
use rules::{Role, TermKind};

// Where a register of a party stands.
fn place_of(party: usize, i: usize) -> usize
    requires { (party < party_limit) × (i < register_count) }
    ensures { (result ≡ register_at party i) × (result + 1 < register_bytes) }
{
    rules::REGISTER_WIDTH * party + 2 * i
}

// What a register of a party shows.
#[tactic(auto, using(crate::proofs::Bytes::shown_there))]
pub fn shown(registers: &[u8], party: usize, i: usize) -> usize
    requires { (length registers.now ≡ register_bytes) × (party < party_limit) × (i < register_count) }
    ensures { result ≡ registers_in registers.now party i }
{
    let at = place_of(party, i);
    records::word_at(registers, at) as usize
}

// A register of a party shows a term.
#[tactic(auto, using(crate::proofs::Bytes::shown_put))]
pub fn show(registers: &mut [u8], party: usize, i: usize, r: usize)
    requires { (length registers.old ≡ register_bytes) × (party < party_limit) × (i < register_count) × (r < 65536) }
    ensures { registers_in registers.new ≡ shown_at (registers_in registers.old) party i r }
{
    let at = place_of(party, i);
    registers[at] = (r / 256 % 256) as u8;
    registers[at + 1] = (r % 256) as u8;
}

// A register of every device shows a term.
#[tactic(auto, using(crate::proofs::Start::devices))]
fn show_all(loaded: &Loaded, registers: &mut [u8], parties: usize, i: usize, r: usize)
    requires { (length registers.old ≡ register_bytes)
        × (parties ≡ length (file_in loaded.now.file.now).roles)
        × (i < register_count)
        × (r < 65536) }
    ensures { registers_in registers.new ≡ shown_by_devices (file_in loaded.now.file.now) (registers_in registers.old) parties i r }
{
    for p in 0..parties {
        if loaded.is_role(p, Role::Device) {
            show(registers, p, i, r);
        }
    }
}

// What registers show before the first command: in every device each starts at its 1B, the others are empty.
pub fn fill(loaded: &Loaded, registers: &mut [u8], parties: usize, terms: usize)
    requires { (length registers.old ≡ register_bytes)
        × (parties ≡ length (file_in loaded.now.file.now).roles)
        × (terms ≡ length (file_in loaded.now.file.now).terms) }
    ensures shows { registers_in registers.new ≡ start_registers (file_in loaded.now.file.now) }
    ensures bytes { Bytes registers.new }
{
    registers.fill(255);
    for t in (0..terms).rev() {
        if loaded.is_kind(t, TermKind::Register) {
            show_all(loaded, registers, parties, loaded.register(t), t);
        }
    }
}
