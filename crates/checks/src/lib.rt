// Refusals 3 to 8 at a record of a scenario file, and what is read of its parties and terms.
#![tactic(auto)]

pub mod declared;

ghost use Rattle.std.specs.Prelude.{◌≡◌, ◌+◌, ◌*◌, ◌<◌, ◌≤◌, length};
ghost use Rattle.rules.specs.Limits.{row_width};
ghost use Rattle.rules.specs.Load.{empty_pair};
ghost use Rattle.state.specs.View.{view};
ghost use Rattle.learning.specs.There.{kind_there};
ghost use Rattle.checks.specs.There.{role_there};

pub use declared::Declared;

// The role of a party, from its record.
pub fn role_of(file: &[u8], p: usize) -> u8
    requires { 2 * p + 1 < length file.now }
    ensures { result ≡ role_there file.now p }
{
    file[2 * p + 1]
}

// The kind of a term, from its record.
pub fn kind_there(file: &[u8], state: &[u8], t: usize) -> u8
    requires { (row_width * t + row_width ≤ length state.now) × ((view state.now).place t < length file.now) }
    ensures { result ≡ kind_there file.now ((view state.now).place t) }
{
    file[state::place_of(state, t)]
}

// Whether the pair at a place is empty: both of its fields are.
#[tactic(auto, unfolding(rules::specs::Load::empty_pair))]
pub fn empty_pair(body: &[u8], i: usize) -> bool
    requires { i + 3 < length body.now }
    ensures { result ≡ empty_pair body.now i }
{
    records::word_at(body, i) == rules::EMPTY_FIELD
        && records::word_at(body, i + 2) == rules::EMPTY_FIELD
}
