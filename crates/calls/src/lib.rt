// The calls on a lent slice of entries: Run and what is asked after it, and Path. `entry` reads one of them.
#![tactic(auto)]

ghost use Rattle.std.specs.Prelude.{◌≡◌, get_or};
ghost use Rattle.rules.specs.Lent.{no_entry, Called, path_in_numbers, path_answer, path_buffers, path_leaves};
ghost use Rattle.rules.specs.Questions.{ask_in_numbers, answer_of, leaves_of};
ghost use Rattle.engine.specs.Runs.{lent_with};

use rules::{Entry, Question, Refused, Told};
use tables::Tables;

// Loads a file, executes the commands that a question is asked after, on lent buffers of any length, and answers it.
// Run is the question for the totals of the first n commands.
pub fn ask(
    file: &[u8],
    question: Question,
    state: &mut [u8],
    ledger: &mut [Entry],
    outcomes: &mut [u8],
    registers: &mut [u8],
) -> Result<Told, Refused>
    ensures { Called (answer_of question file.now) (leaves_of question file.now)
        (lent_with state.old ledger.old outcomes.old registers.old)
        (lent_with state.new ledger.new outcomes.new registers.new) (ask_in_numbers result) }
{
    let n = asking::count_of(question);
    let mut tables = Tables::new();
    let done = engine::run(file, n, state, ledger, outcomes, registers, &mut tables);
    asking::answer(done, question, file, state)
}

// Executes the first n commands as Run does, and gives the path of a certificate after them in a lent list.
pub fn path(
    file: &[u8],
    n: usize,
    state: &mut [u8],
    ledger: &mut [Entry],
    outcomes: &mut [u8],
    registers: &mut [u8],
    term: u16,
    list: &mut [u16],
) -> Result<u32, Refused>
    ensures { Called (λ lent. path_answer file.now n lent term list.old) (λ lent. path_buffers file.now n lent term list.old)
        (lent_with state.old ledger.old outcomes.old registers.old)
        (lent_with state.new ledger.new outcomes.new registers.new) (path_in_numbers result)
        × (list.new ≡ path_leaves file.now n (lent_with state.old ledger.old outcomes.old registers.old) term list.old) }
{
    path::check_room(list)?;
    let mut tables = Tables::new();
    engine::run(file, n, state, ledger, outcomes, registers, &mut tables)?;
    let steps = path::steps_of(&tables, term)?;
    path::climb(&tables, ledger, &mut list[..=steps as usize], term);
    Ok(steps)
}

// The entry at a place of a ledger; zeros beyond its end.
pub fn entry(ledger: &[Entry], i: usize) -> Entry
    ensures { result ≡ get_or ledger.now i no_entry }
{
    if i < ledger.len() {
        ledger::read_one(ledger, i)
    } else {
        Entry::default()
    }
}
