// 3E, the challenge of an IAK: what it decides and leaves.
#![tactic(auto)]

ghost use Rattle.std.specs.Prelude.{◌≡◌, List, ◌+◌, ◌*◌, ◌<◌, ◌≤◌, length};
ghost use Rattle.rules.specs.declared.Entry.{Entry};
ghost use Rattle.rules.specs.Codes.{number_in};
ghost use Rattle.rules.specs.Limits.{row_width, party_limit};
ghost use Rattle.rules.specs.File.{challenge};
ghost use Rattle.rules.specs.Desk.{number_tests};
ghost use Rattle.theorems.specs.Chain.{chain};
ghost use Rattle.theorems.proofs.Loading.{Wellformed};
ghost use Rattle.state.specs.View.{view};
ghost use Rattle.state.proofs.Exact.{state_of};
ghost use Rattle.loaded.specs.Loaded.{file_in, Holds, Decides, Leaves};

use loaded::Loaded;
use rules::{Refusal, Role, TermKind, ensure};

// The number of a challenge: known to the desk, to one party in all, and unused.
#[tactic(auto, unfolding(theorems::specs::Chain::chain, rules::specs::Desk::number_tests))]
fn fresh_number(state: &[u8], party: usize, number: usize) -> Result<(), Refusal>
    requires { (party < party_limit) × (row_width * number + row_width ≤ length state.now) }
    ensures { (ledger : List Entry) → number_in result ≡ chain (number_tests (state_of (view state.now) ledger) party number) }
{
    ensure(state::knows(state, party, number), Refusal::NumberTaken)?;
    ensure(state::knowers_of(state, number) == 1, Refusal::NumberTaken)?;
    ensure(
        state::mark_of(state, number) != rules::NUMBER_USED,
        Refusal::NumberTaken,
    )
}

// 3E Challenge.
#[tactic(auto, using(crate::proofs::Outcome::challenges))]
pub fn decide(
    loaded: &Loaded,
    state: &[u8],
    party: usize,
    q: usize,
    r: usize,
) -> Result<(), Refusal>
    requires { Holds loaded.now.file.now state.now × Wellformed (file_in loaded.now.file.now) (challenge party q r) }
    ensures { Decides loaded.now.file.now state.now (challenge party q r) result }
{
    ensure(loaded.is_role(party, Role::OemDesk), Refusal::RoleForbids)?;
    ensure(state::knows(state, party, q), Refusal::InputUnknown)?;
    let request = requests::form(loaded, q, TermKind::IdevidRequest)?;
    let asked = loaded.idevid_request(request.body);
    ensure(requests::is_device(asked.subject), Refusal::RequestForm)?;
    requests::proof_of_key(loaded, request, asked.key)?;
    let certificate = loaded.certificate(asked.certificate);
    requests::endorsement(loaded, certificate, asked.key)?;
    let credential = loaded.credential(r);
    fresh_number(state, party, credential.number)?;
    requests::credential_names(loaded, credential, asked.key, certificate.key)
}

// What 3E leaves: the desk learns the credential; its number is used, and it is open with the request and the desk.
#[tactic(auto, using(crate::proofs::Outcome::challenges))]
pub fn effect(loaded: &Loaded, state: &mut [u8], party: usize, q: usize, r: usize)
    requires { Holds loaded.now.file.now state.old × Wellformed (file_in loaded.now.file.now) (challenge party q r) }
    ensures { Leaves loaded.now.file.now state.old state.new (challenge party q r) }
{
    let credential = loaded.credential(r);
    loaded.learn(state, party, r);
    state::note_mark(state, credential.number, rules::NUMBER_USED);
    state::note_mark(state, r, rules::CREDENTIAL_OPEN);
    state::note_desk(state, r, party as u8);
    state::note_request(state, r, q);
}
