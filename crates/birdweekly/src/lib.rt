// The functions for C and Rust. Slices pass as a pointer and a length.
#![tactic(auto)]

ghost use Rattle.std.specs.Prelude.{◌≡◌, get_or};
ghost use Rattle.rules.specs.Lent.{no_entry, Called, load_in_numbers, load_answer, load_leaves, run_answer, run_leaves, path_in_numbers, path_answer, path_buffers, path_leaves};
ghost use Rattle.rules.specs.Stock.{stock_answer, stock_leaves};
ghost use Rattle.rules.specs.Questions.{ask_in_numbers};
ghost use Rattle.engine.specs.Runs.{lent_with};
ghost use Rattle.birdweekly.specs.Numbers.{numbers_of, load_numbers, run_numbers, path_numbers, stock_numbers};

use rules::{Counts, Entry, Question, Refused, Told};

// What loading answers: number 0 with the parties, terms and commands, or the refusal with its place.
#[repr(C)]
#[derive(Clone, Copy)]
pub struct LoadNumbers {
    pub number: u32,
    pub place: u32,
    pub parties: u32,
    pub terms: u32,
    pub commands: u32,
}

// Loads a scenario file of any bytes into a lent state buffer of any length.
#[unsafe(no_mangle)]
pub extern "C" fn birdweekly_load(file: &[u8], state: &mut [u8]) -> LoadNumbers
    ensures answer { result ≡ load_numbers (load_answer file.now state.old) }
    ensures left { state.new ≡ load_leaves file.now state.old }
{
    LoadNumbers::from(loader::load(file, state))
}

// What Run answers: number 0 with the commands accepted and refused and the certificates issued, or the refusal with
// its place.
#[repr(C)]
#[derive(Clone, Copy)]
pub struct RunNumbers {
    pub number: u32,
    pub place: u32,
    pub accepted: u32,
    pub refused: u32,
    pub issued: u32,
}

// What Path answers: number 0 with the steps, or the refusal with its place.
#[repr(C)]
#[derive(Clone, Copy)]
pub struct PathNumbers {
    pub number: u32,
    pub place: u32,
    pub steps: u32,
}

// What the stock of numbers answers: number 0 with whole boards and the numbers left over, or the refusal with its
// place.
#[repr(C)]
#[derive(Clone, Copy)]
pub struct StockNumbers {
    pub number: u32,
    pub place: u32,
    pub boards: u32,
    pub rest: u32,
}

// An answer as numbers: its values in order, 0 where it has fewer. A struct each stands for C, which names the fields.
#[derive(Clone, Copy)]
struct Numbers {
    number: u32,
    place: u32,
    first: u32,
    second: u32,
    third: u32,
}

impl From<Result<Told, Refused>> for Numbers {
    ghost from_gives = { λ x n. n ≡ numbers_of (ask_in_numbers x) };

    #[tactic(auto, unfolding(rules::specs::Lent::in_numbers))]
    fn from(answer: Result<Told, Refused>) -> Numbers {
        match answer {
            Ok(Told::Totals(totals)) => Numbers {
                number: 0,
                place: 0,
                first: totals.accepted,
                second: totals.refused,
                third: totals.issued,
            },
            Ok(Told::Boards(left)) => Numbers {
                number: 0,
                place: 0,
                first: left.boards,
                second: left.rest,
                third: 0,
            },
            Err(r) => Numbers {
                number: r.refusal.number() as u32,
                place: r.place,
                first: 0,
                second: 0,
                third: 0,
            },
        }
    }
}

impl From<Result<Told, Refused>> for RunNumbers {
    ghost from_gives = { λ x n. n ≡ run_numbers (ask_in_numbers x) };

    fn from(answer: Result<Told, Refused>) -> RunNumbers {
        let n = Numbers::from(answer);
        RunNumbers {
            number: n.number,
            place: n.place,
            accepted: n.first,
            refused: n.second,
            issued: n.third,
        }
    }
}

impl From<Result<Told, Refused>> for StockNumbers {
    ghost from_gives = { λ x n. n ≡ stock_numbers (ask_in_numbers x) };

    fn from(answer: Result<Told, Refused>) -> StockNumbers {
        let n = Numbers::from(answer);
        StockNumbers {
            number: n.number,
            place: n.place,
            boards: n.first,
            rest: n.second,
        }
    }
}

impl From<Result<Counts, Refused>> for LoadNumbers {
    ghost from_gives = { λ x n. n ≡ load_numbers (load_in_numbers x) };

    #[tactic(auto, unfolding(rules::specs::Lent::in_numbers))]
    fn from(answer: Result<Counts, Refused>) -> LoadNumbers {
        match answer {
            Ok(counts) => LoadNumbers {
                number: 0,
                place: 0,
                parties: counts.parties,
                terms: counts.terms,
                commands: counts.commands,
            },
            Err(refused) => LoadNumbers {
                number: refused.refusal.number() as u32,
                place: refused.place,
                parties: 0,
                terms: 0,
                commands: 0,
            },
        }
    }
}

impl From<Result<u32, Refused>> for PathNumbers {
    ghost from_gives = { λ x n. n ≡ path_numbers (path_in_numbers x) };

    #[tactic(auto, unfolding(rules::specs::Lent::in_numbers))]
    fn from(answer: Result<u32, Refused>) -> PathNumbers {
        match answer {
            Ok(steps) => PathNumbers {
                number: 0,
                place: 0,
                steps,
            },
            Err(r) => PathNumbers {
                number: r.refusal.number() as u32,
                place: r.place,
                steps: 0,
            },
        }
    }
}

// Runs a scenario file of any bytes on lent buffers of any length.
#[tactic(auto, unfolding(rules::specs::Questions::answer_of, rules::specs::Questions::leaves_of))]
#[unsafe(no_mangle)]
pub extern "C" fn birdweekly_run(
    file: &[u8],
    n: usize,
    state: &mut [u8],
    ledger: &mut [Entry],
    outcomes: &mut [u8],
    registers: &mut [u8],
) -> RunNumbers
    ensures { Called (λ lent. run_numbers (run_answer file.now n lent)) (run_leaves file.now n)
        (lent_with state.old ledger.old outcomes.old registers.old)
        (lent_with state.new ledger.new outcomes.new registers.new) result }
{
    let answer = calls::ask(
        file,
        Question::Totals(n),
        state,
        ledger,
        outcomes,
        registers,
    );
    RunNumbers::from(answer)
}

// Runs all commands of a scenario file of any bytes on lent buffers of any length, and answers how many boards the
// numbers in a party's stock are enough for.
#[tactic(auto, unfolding(rules::specs::Questions::answer_of, rules::specs::Questions::leaves_of))]
#[unsafe(no_mangle)]
pub extern "C" fn birdweekly_stock(
    file: &[u8],
    state: &mut [u8],
    ledger: &mut [Entry],
    outcomes: &mut [u8],
    registers: &mut [u8],
    party: u8,
    iaks: u32,
) -> StockNumbers
    ensures { Called (λ lent. stock_numbers (stock_answer file.now lent party iaks)) (λ lent. stock_leaves file.now lent party iaks)
        (lent_with state.old ledger.old outcomes.old registers.old)
        (lent_with state.new ledger.new outcomes.new registers.new) result }
{
    let answer = calls::ask(
        file,
        Question::Stock(party, iaks),
        state,
        ledger,
        outcomes,
        registers,
    );
    StockNumbers::from(answer)
}

// Runs the first n commands of a scenario file of any bytes on lent buffers of any length, and gives the path of a
// certificate after them in a lent list.
#[unsafe(no_mangle)]
pub extern "C" fn birdweekly_path(
    file: &[u8],
    n: usize,
    state: &mut [u8],
    ledger: &mut [Entry],
    outcomes: &mut [u8],
    registers: &mut [u8],
    term: u16,
    list: &mut [u16],
) -> PathNumbers
    ensures { Called (λ lent. path_numbers (path_answer file.now n lent term list.old)) (λ lent. path_buffers file.now n lent term list.old)
        (lent_with state.old ledger.old outcomes.old registers.old)
        (lent_with state.new ledger.new outcomes.new registers.new) result
        × (list.new ≡ path_leaves file.now n (lent_with state.old ledger.old outcomes.old registers.old) term list.old) }
{
    let answer = calls::path(file, n, state, ledger, outcomes, registers, term, list);
    PathNumbers::from(answer)
}

// The entry at a place of a ledger of any length; zeros beyond its end.
#[unsafe(no_mangle)]
pub extern "C" fn birdweekly_entry_at(ledger: &[Entry], i: usize) -> Entry
    ensures { result ≡ get_or ledger.now i no_entry }
{
    calls::entry(ledger, i)
}
