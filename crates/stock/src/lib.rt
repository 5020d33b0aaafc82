// Boards left in the stock of numbers (request 12 of document 02).
#![tactic(auto)]

ghost use Rattle.std.specs.Prelude.{◌≡◌, List, [], ◌∷◌, ◌<◌, length};
ghost use Rattle.rules.specs.declared.Entry.{Entry};
ghost use Rattle.rules.specs.Limits.{party_limit};
ghost use Rattle.rules.specs.Lent.{in_numbers};
ghost use Rattle.rules.specs.Stock.{in_stock, stock, boards_left};
ghost use Rattle.state.specs.View.{view};
ghost use Rattle.state.proofs.Exact.{state_of};
ghost use Rattle.loaded.specs.Loaded.{file_in, Holds, TermHere};

use rules::{Boards, Refusal, Refused, Role, TermKind};

// Whether a term is an unused number that a desk alone knows.
#[tactic(auto, using(crate::proofs::Counting::number_here), unfolding(rules::specs::Stock::in_stock))]
fn in_stock(file: &[u8], state: &[u8], desk: usize, t: usize) -> bool
    requires { TermHere file.now state.now t × (desk < party_limit) }
    ensures { (ledger : List Entry) → result ≡ in_stock (file_in file.now) (state_of (view state.now) ledger) desk t }
{
    checks::kind_there(file, state, t) == TermKind::Number.number()
        && state::knows(state, desk, t)
        && state::knowers_of(state, t) == 1
        && state::mark_of(state, t) != rules::NUMBER_USED
}

// How many terms are.
#[tactic(auto, unfolding(rules::specs::Stock::stock_among, rules::specs::Stock::stock))]
fn stock_of(file: &[u8], state: &[u8], terms: usize, desk: usize) -> u32
    requires { Holds file.now state.now × (terms ≡ length (file_in file.now).terms) × (desk < party_limit) }
    ensures { (ledger : List Entry) → result ≡ stock (file_in file.now) (state_of (view state.now) ledger) desk }
{
    let mut count = 0;
    for t in 0..terms {
        if in_stock(file, state, desk, t) {
            count += 1;
        }
    }
    count
}

// Whole boards and the numbers left over, by the IAKs per board; 39 where these are 0 or the party is no OEM desk.
#[tactic(auto, using(crate::proofs::Counting::desk_here, crate::proofs::Counting::no_desk), unfolding(rules::specs::Stock::boards_left, rules::specs::Lent::in_numbers))]
pub fn boards_left(
    file: &[u8],
    state: &[u8],
    parties: usize,
    terms: usize,
    party: usize,
    iaks: u32,
) -> Result<Boards, Refused>
    requires { Holds file.now state.now × (parties ≡ length (file_in file.now).roles) × (terms ≡ length (file_in file.now).terms) }
    ensures { (ledger : List Entry) → in_numbers (λ x. x.boards ∷ x.rest ∷ []) result ≡ boards_left party iaks (file_in file.now) (state_of (view state.now) ledger) }
{
    if parties <= party || checks::role_of(file, party) != Role::OemDesk.number() || iaks == 0 {
        return Err(Refused {
            refusal: Refusal::NoBoards,
            place: 0,
        });
    }
    let stock = stock_of(file, state, terms, party);
    Ok(Boards {
        boards: stock / iaks,
        rest: stock % iaks,
    })
}
