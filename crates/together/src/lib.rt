// All IAKs of a board together, 43: what the command decides and leaves. All pairs are judged on the state before the
// command, and none is written before all are.
#![tactic(auto)]

ghost use Rattle.std.specs.Prelude.{◌≡◌, List, ℕ, ◌+◌, ◌*◌, ◌<◌, ◌≤◌, length, OnOk};
ghost use Rattle.rules.specs.declared.Entry.{Entry};
ghost use Rattle.rules.specs.Codes.{number_in};
ghost use Rattle.rules.specs.Limits.{pair_count, pair_width};
ghost use Rattle.rules.specs.Load.{pairs_at};
ghost use Rattle.rules.specs.Desk.{ek_of, certificates_of, is_among, any_twice};
ghost use Rattle.theorems.specs.Judging.{credentials_of, others_end, judged};
ghost use Rattle.theorems.proofs.Loading.{PairsFormed};
ghost use Rattle.state.specs.View.{view};
ghost use Rattle.state.proofs.Exact.{state_of};
ghost use Rattle.loaded.specs.Loaded.{file_in, Holds};
ghost use Rattle.loaded.specs.Entries.{Ledgered, DecidesListed, DeskLeaves};
ghost use Rattle.requests.specs.Formed.{Requested};
ghost use Rattle.together.specs.Pairs.{pair_of, pairs_of, PairsRequested};
ghost use Rattle.together.specs.Ready.{desk_at, returning_at, together_at, TogetherDecided, JudgeReady, PairsJudged, TogetherDone};

use arrayvec::ArrayVec;
use ledger::Gained;
use loaded::Loaded;
use rules::{Refusal, Role, Subject, ensure};
use tables::Tables;

// A pair: a credential, and the certificate to issue for it.
#[derive(Clone, Copy, Default)]
struct Pair {
    credential: usize,
    certificate: usize,
}

// The pairs that are not empty, from the first's place on.
fn pairs_at(file: &[u8], first: usize) -> ArrayVec<Pair, { rules::PAIR_COUNT }>
    requires { first + pair_width * pair_count ≤ length file.now }
    ensures { pairs_of result.items ≡ pairs_at pair_count file.now first }
{
    let mut pairs = ArrayVec::new();
    for j in 0..rules::PAIR_COUNT {
        let place = first + rules::PAIR_WIDTH * j;
        if !checks::empty_pair(file, place) {
            pairs.push(Pair {
                credential: records::word_at(file, place) as usize,
                certificate: records::word_at(file, place + 2) as usize,
            });
        }
    }
    pairs
}

// Whether some pair has a credential.
fn has_credential(pairs: &[Pair], c: usize) -> bool
    ensures { result ≡ is_among c (credentials_of (pairs_of pairs.now)) }
{
    pairs.iter().any(|x| c == x.credential)
}

// Whether some pair has a certificate. A field given by a closure would be no plainer than a line each.
fn has_certificate(pairs: &[Pair], r: usize) -> bool
    ensures { result ≡ is_among r (certificates_of (pairs_of pairs.now)) }
{
    pairs.iter().any(|x| r == x.certificate)
}

// Whether two pairs have one certificate.
fn any_twice(pairs: &[Pair]) -> bool
    ensures { result ≡ any_twice (certificates_of (pairs_of pairs.now)) }
{
    for (i, x) in pairs.iter().enumerate() {
        if has_certificate(&pairs[i + 1..], x.certificate) {
            return true;
        }
    }
    false
}

// The EK in the request that a credential was opened with.
fn ek_asked(loaded: &Loaded, state: &[u8], c: usize) -> usize
    requires { Holds loaded.now.file.now state.now × (c < length (file_in loaded.now.file.now).terms) × Requested (file_in loaded.now.file.now) ((view state.now).request c) }
    ensures { result ≡ ek_of (file_in loaded.now.file.now) ((view state.now).request c) }
{
    let q = state::request_of(state, c);
    let body = loaded.pair(q).left;
    let asked = loaded.idevid_request(body);
    loaded.certificate(asked.certificate).key
}

// Whether each pair with a Subject has an EK.
fn others_end(loaded: &Loaded, state: &[u8], wanted: Subject, ek: usize, pairs: &[Pair]) -> bool
    requires { Holds loaded.now.file.now state.now × PairsFormed (file_in loaded.now.file.now) (pairs_of pairs.now) × PairsRequested (file_in loaded.now.file.now) (view state.now).request (pairs_of pairs.now) }
    ensures { result ≡ others_end (file_in loaded.now.file.now) (view state.now).request wanted ek (pairs_of pairs.now) }
{
    // A closure for `all` would need what these calls ask as a clause of its own.
    for x in pairs {
        if loaded.certificate(x.certificate).subject == wanted
            && ek_asked(loaded, state, x.credential) != ek
        {
            return false;
        }
    }
    true
}

// What a pair is judged by, after those before it.
#[tactic(auto, using(crate::proofs::Deciding::judged_cond))]
fn judge(
    loaded: &Loaded,
    state: &[u8],
    at: usize,
    before: &[Pair],
    pair: Pair,
) -> Result<(), Refusal>
    requires { JudgeReady loaded.now.file.now state.now loaded.now.tables.now at (pairs_of before.now) (pair_of pair) }
    ensures judged { (entries : ℕ) (ledger : List Entry) → Ledgered loaded.now.file.now state.now loaded.now.tables.now entries ledger → number_in result ≡ judged (file_in loaded.now.file.now) (state_of (view state.now) ledger) (desk_at loaded.now.file.now at) (returning_at loaded.now.file.now at) (pairs_of before.now) (pair_of pair) }
    ensures requested { OnOk result (Requested (file_in loaded.now.file.now) ((view state.now).request pair.credential)) }
{
    ensure(
        !has_credential(before, pair.credential),
        Refusal::CredentialNotOpen,
    )?;
    let party = loaded.file[at + 1] as usize;
    let other = loaded.file[at + 2] as usize;
    issuance::decide_issue_iak(
        loaded,
        state,
        party,
        other,
        pair.credential,
        pair.certificate,
    )?;
    let wanted = loaded.certificate(pair.certificate).subject;
    let ek = ek_asked(loaded, state, pair.credential);
    ensure(
        others_end(loaded, state, wanted, ek, before),
        Refusal::SubjectOfAnotherEk,
    )
}

// The same of each pair, up to the first that is refused.
fn judge_all(loaded: &Loaded, state: &[u8], at: usize, pairs: &[Pair]) -> Result<(), Refusal>
    requires { PairsJudged loaded.now.file.now state.now loaded.now.tables.now at (pairs_of pairs.now) }
    ensures { DecidesListed loaded.now.file.now state.now loaded.now.tables.now (together_at loaded.now.file.now at) result }
{
    for (i, pair) in pairs.iter().enumerate() {
        judge(loaded, state, at, &pairs[..i], *pair)?;
    }
    Ok(())
}

// 43.
pub fn decide(loaded: &Loaded, state: &[u8], at: usize) -> Result<(), Refusal>
    requires { TogetherDecided loaded.now.file.now state.now loaded.now.tables.now at }
    ensures { DecidesListed loaded.now.file.now state.now loaded.now.tables.now (together_at loaded.now.file.now at) result }
{
    let party = loaded.file[at + 1] as usize;
    ensure(loaded.is_role(party, Role::OemDesk), Refusal::RoleForbids)?;
    let pairs = pairs_at(loaded.file, at + 3);
    ensure(!pairs.is_empty(), Refusal::PairsEmptyOrAlike)?;
    ensure(!any_twice(&pairs), Refusal::PairsEmptyOrAlike)?;
    judge_all(loaded, state, at, &pairs)
}

// What an accepted 43 leaves: what a 3F of each pair leaves, one after the other. Answers the entries that the ledger
// gains.
pub fn effect(
    file: &[u8],
    state: &mut [u8],
    tables: &mut Tables,
    entries: usize,
    at: usize,
) -> Gained
    requires { TogetherDone file.now state.old tables.old entries at }
    ensures { DeskLeaves file.now state.old tables.old entries (together_at file.now at) state.new tables.new result.items }
{
    let party = file[at + 1] as usize;
    let read = pairs_at(file, at + 3);
    let pairs = read.as_slice();
    let mut gained = Gained::new();
    for pair in pairs {
        let n = entries + gained.len();
        let e = issuance::effect_issue_iak(
            file,
            state,
            tables,
            n,
            party,
            pair.credential,
            pair.certificate,
        );
        gained.push(e);
    }
    gained
}
