// Loading: a scenario file of any bytes and a lent state buffer of any length.
#![tactic(auto)]

ghost use Rattle.std.specs.Prelude.{◌≡◌};
ghost use Rattle.rules.specs.Lent.{load_in_numbers, load_answer, load_leaves};
ghost use Rattle.loader.specs.Tabled.{FillReady, FillResult};

use rules::{Counts, Refusal, Refused};
use scan::Scanned;
use tables::Tables;

// Fills the state and the empty tables of a file; where it is refused the state is cleared.
pub fn fill(file: &[u8], state: &mut [u8], tables: &mut Tables) -> Result<Scanned, Refused>
    requires { FillReady file.now state.old tables.old }
    ensures { FillResult file.now state.new tables.new result }
{
    state::clear(state);
    let found = scan::scan(file, state, tables);
    if found.is_err() {
        state::clear(state);
    }
    found
}

// Loads a file into a lent state buffer.
pub fn load(file: &[u8], state: &mut [u8]) -> Result<Counts, Refused>
    ensures answer { load_in_numbers result ≡ load_answer file.now state.old }
    ensures left { state.new ≡ load_leaves file.now state.old }
{
    if state.len() < rules::STATE_BYTES {
        return Err(Refused {
            refusal: Refusal::BufferShort,
            place: 0,
        });
    }
    if rules::FILE_LIMIT < file.len() {
        return Err(Refused {
            refusal: Refusal::FileLong,
            place: 0,
        });
    }
    let mut tables = Tables::new();
    let found = fill(file, &mut state[..rules::STATE_BYTES], &mut tables)?;
    let n = found.tally;
    Ok(Counts {
        parties: n.parties as u32,
        terms: n.terms as u32,
        commands: n.commands as u32,
    })
}
