// What stands before the first command: the first parts of the lent buffers are cleared, and a file is loaded into
// them.
#![tactic(auto)]

ghost use Rattle.std.specs.Prelude.{IfOk, IfErr};
ghost use Rattle.tables.specs.Columns.{EmptyTables};
ghost use Rattle.beginning.specs.Begins.{lent_with, Begins, Refuses};

use loaded::Loaded;
use rules::{Entry, Refusal, Refused};
use tables::Tables;
use turns::Begun;

// Loads a file into lent buffers of any length and empty tables.
pub fn begin(
    file: &[u8],
    state: &mut [u8],
    ledger: &mut [Entry],
    outcomes: &mut [u8],
    registers: &mut [u8],
    tables: &mut Tables,
) -> Result<Begun, Refused>
    requires { EmptyTables tables.old }
    ensures ok { IfOk result (Begins file.now (lent_with state.old ledger.old outcomes.old registers.old) (lent_with state.new ledger.new outcomes.new registers.new) tables.new) }
    ensures err { IfErr result (Refuses file.now (lent_with state.old ledger.old outcomes.old registers.old) (lent_with state.new ledger.new outcomes.new registers.new)) }
{
    if state.len() < rules::STATE_BYTES
        || ledger.len() < rules::TERM_LIMIT
        || outcomes.len() < rules::COMMAND_LIMIT
        || registers.len() < rules::REGISTER_BYTES
    {
        return Err(Refused {
            refusal: Refusal::BufferShort,
            place: 0,
        });
    }
    if rules::FILE_LIMIT < file.len() {
        return Err(Refused {
            refusal: Refusal::FileLong,
            place: 0,
        });
    }
    ledger::clear(ledger, rules::TERM_LIMIT);
    outcomes[..rules::COMMAND_LIMIT].fill(0);
    let shown = &mut registers[..rules::REGISTER_BYTES];
    let found = match loader::fill(file, &mut state[..rules::STATE_BYTES], tables) {
        Ok(found) => found,
        Err(refused) => {
            shown.fill(0);
            return Err(refused);
        }
    };
    let n = found.tally;
    registers::fill(&Loaded { file, tables }, shown, n.parties, n.terms);
    Ok(Begun {
        parties: n.parties,
        terms: n.terms,
        first: found.first,
    })
}
