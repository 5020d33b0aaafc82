// Certificates issued, 3F and 40 to 42: what each command decides and leaves.
#![tactic(auto)]

ghost use Rattle.std.specs.Prelude.{◌≡◌, List, [], ◌∷◌, ℕ, ◌<◌};
ghost use Rattle.rules.specs.declared.Entry.{Entry};
ghost use Rattle.rules.specs.declared.Family.{Family};
ghost use Rattle.rules.specs.Codes.{number_in};
ghost use Rattle.rules.specs.Limits.{term_limit};
ghost use Rattle.rules.specs.File.{File, issue_iak, issue};
ghost use Rattle.rules.specs.State.{credential_open};
ghost use Rattle.rules.specs.Desk.{all_end_at};
ghost use Rattle.theorems.specs.Chain.{chain};
ghost use Rattle.theorems.proofs.Ends.{OneEk};
ghost use Rattle.theorems.proofs.Loading.{Wellformed};
ghost use Rattle.state.specs.View.{view};
ghost use Rattle.tables.specs.Columns.{tables_in};
ghost use Rattle.boards.specs.Linked.{Falls};
ghost use Rattle.loaded.specs.Loaded.{file_in, Holds};
ghost use Rattle.loaded.specs.Entries.{Enters, Boarded, DecidesListed, DeskLeaves};
ghost use Rattle.requests.specs.Formed.{Requested};
ghost use Rattle.issuance.specs.Tests.{iak_entry_tests, entry_tests};
ghost use Rattle.issuance.specs.Appends.{Appends, linked_by};
ghost use Rattle.issuance.specs.Issues.{IssuesIak, IssuesOnRequest};

use loaded::Loaded;
use rules::{Entry, Family, Refusal, Role, Subject, TermKind, ensure};
use tables::Tables;

// Whether every entry with a Subject has a path that ends at an EK: the one that its serial number finds tells, and no
// entry has a TPM's.
fn ends_at(tables: &Tables, wanted: Subject, ek: usize) -> bool
    requires { Falls (tables_in tables.now).boards term_limit }
    ensures { (f : File) (ledger : List Entry) → Boarded f (tables_in tables.now).boards ledger → OneEk f ledger → result ≡ all_end_at f ledger wanted ek ledger }
{
    let Subject::Device(serial) = wanted else {
        return true;
    };
    match boards::entry_of(tables, serial) {
        Some(place) => tables.ek_of(place) as usize == ek,
        None => true,
    }
}

// The entry of an IAK certificate: none so far, and no other EK with its Subject.
#[tactic(auto, using(crate::proofs::Listed::columns), unfolding(theorems::specs::Chain::chain, crate::specs::Tests::iak_entry_tests))]
fn iak_allowed(tables: &Tables, r: usize, wanted: Subject, ek: usize) -> Result<(), Refusal>
    requires { (r < term_limit) × Falls (tables_in tables.now).boards term_limit }
    ensures { (f : File) (n : ℕ) (ledger : List Entry) → Enters tables.now n ledger → Boarded f (tables_in tables.now).boards ledger → OneEk f ledger → number_in result ≡ chain (iak_entry_tests f ledger r wanted ek) }
{
    ensure(tables.entry_of(r).is_none(), Refusal::IssuedAlready)?;
    ensure(ends_at(tables, wanted, ek), Refusal::SubjectOfAnotherEk)
}

// 3F IssueIak.
#[tactic(auto, using(crate::proofs::IssueIak::iak_issues))]
pub fn decide_issue_iak(
    loaded: &Loaded,
    state: &[u8],
    party: usize,
    other: usize,
    c: usize,
    r: usize,
) -> Result<(), Refusal>
    requires { Holds loaded.now.file.now state.now × Wellformed (file_in loaded.now.file.now) (issue_iak party other c r) × ((view state.now).mark c ≡ credential_open → Requested (file_in loaded.now.file.now) ((view state.now).request c)) × Falls (tables_in loaded.now.tables.now).boards term_limit }
    ensures { DecidesListed loaded.now.file.now state.now loaded.now.tables.now (issue_iak party other c r) result }
{
    ensure(loaded.is_role(party, Role::OemDesk), Refusal::RoleForbids)?;
    ensure(
        state::mark_of(state, c) == rules::CREDENTIAL_OPEN,
        Refusal::CredentialNotOpen,
    )?;
    ensure(
        state::desk_of(state, c) as usize == party,
        Refusal::CredentialNotOpen,
    )?;
    ensure(loaded.is_role(other, Role::Device), Refusal::PartyReturning)?;
    let credential = loaded.credential(c);
    ensure(
        state::knows(state, other, credential.number),
        Refusal::PartyReturning,
    )?;
    let request = loaded.pair(state::request_of(state, c));
    let asked = loaded.idevid_request(request.left);
    requests::called_for(loaded, party, r, asked.key, asked.subject)?;
    let endorsement = loaded.certificate(asked.certificate);
    iak_allowed(loaded.tables, r, asked.subject, endorsement.key)
}

// The entry of a certificate below its parent's: none so far, and not too deep.
#[tactic(auto, using(crate::proofs::Listed::columns), unfolding(theorems::specs::Chain::chain, crate::specs::Tests::entry_tests))]
fn entry_allowed(tables: &Tables, r: usize, parent: usize) -> Result<(), Refusal>
    requires { (r < term_limit) × (parent < term_limit) }
    ensures { (n : ℕ) (ledger : List Entry) → Enters tables.now n ledger → number_in result ≡ chain (entry_tests ledger r parent) }
{
    ensure(tables.entry_of(r).is_none(), Refusal::IssuedAlready)?;
    ensure(
        tables.depth_of(parent) < rules::DEPTH_LIMIT,
        Refusal::TooDeep,
    )
}

// 40, 41, 42: what differs is the family.
#[tactic(auto, using(crate::proofs::IssueOnRequest::issues))]
pub fn decide_issue(
    loaded: &Loaded,
    state: &[u8],
    family: Family,
    party: usize,
    q: usize,
    r: usize,
) -> Result<(), Refusal>
    requires { Holds loaded.now.file.now state.now × Wellformed (file_in loaded.now.file.now) (issue family party q r) }
    ensures { DecidesListed loaded.now.file.now state.now loaded.now.tables.now (issue family party q r) result }
{
    ensure(loaded.is_role(party, family.desk), Refusal::RoleForbids)?;
    ensure(state::knows(state, party, q), Refusal::InputUnknown)?;
    let request = requests::form(loaded, q, TermKind::LdevidRequest)?;
    let asked = loaded.ldevid_request(request.body);
    let attested = requests::attested_by(loaded, asked.message)?;
    requests::proof_of_key(loaded, request, attested.key)?;
    let parent = loaded.certificate(asked.certificate);
    requests::parentage(loaded, family, attested.signer, attested.key, parent)?;
    requests::called_for(loaded, party, r, attested.key, parent.subject)?;
    entry_allowed(loaded.tables, r, asked.certificate)
}

// The place and the depth of an entry after the others are noted, and the EK at the end of its path.
fn append(tables: &mut Tables, n: usize, certificate: usize, depth: u16, ek: u16)
    requires { (n < term_limit) × (certificate < term_limit) }
    ensures { Appends tables.old n certificate depth ek tables.new }
{
    tables.note_entry(certificate, Some(n));
    tables.note_depth(certificate, depth);
    tables.note_ek(n, ek);
}

// The entry at a place is linked by its Subject, where that finds none.
fn link(tables: &mut Tables, n: usize, subject: Subject)
    requires { (n < term_limit) × Falls (tables_in tables.old).boards term_limit }
    ensures { tables_in tables.new ≡ linked_by (tables_in tables.old) n subject }
{
    let Subject::Device(serial) = subject else {
        return;
    };
    if boards::entry_of(tables, serial).is_none() {
        tables.link(n, serial);
    }
}

// What 3F leaves: the desk learns the certificate, and the credential is closed. Answers the entry that the ledger
// gains: the certificate under that of the EK. It is linked by its Subject.
pub fn effect_issue_iak(
    file: &[u8],
    state: &mut [u8],
    tables: &mut Tables,
    n: usize,
    party: usize,
    c: usize,
    r: usize,
) -> Entry
    requires { Holds file.now state.old × IssuesIak file.now state.old tables.old n party c r }
    ensures { (other : ℕ) → DeskLeaves file.now state.old tables.old n (issue_iak party other c r) state.new tables.new (result ∷ []) }
{
    let loaded = Loaded { file, tables };
    let request = loaded.pair(state::request_of(state, c));
    let asked = loaded.idevid_request(request.left);
    let endorsement = loaded.certificate(asked.certificate);
    loaded.learn(state, party, r);
    state::note_mark(state, c, rules::CREDENTIAL_CLOSED);
    append(tables, n, r, 1, endorsement.key as u16);
    link(tables, n, asked.subject);
    Entry {
        certificate: r as u16,
        parent: asked.certificate as u16,
        depth: 1,
    }
}

// What 40, 41 and 42 leave: the desk learns the certificate. Answers the entry that the ledger gains: the certificate
// under the request's, one deeper.
pub fn effect_issue(
    file: &[u8],
    state: &mut [u8],
    tables: &mut Tables,
    n: usize,
    party: usize,
    q: usize,
    r: usize,
) -> Entry
    requires { Holds file.now state.old × IssuesOnRequest file.now state.old tables.old n party q r }
    ensures { (family : Family) → DeskLeaves file.now state.old tables.old n (issue family party q r) state.new tables.new (result ∷ []) }
{
    let loaded = Loaded { file, tables };
    let request = loaded.pair(q);
    let parent = loaded.ldevid_request(request.left).certificate;
    let depth = tables.depth_of(parent) + 1;
    let ek = tables.ek_of(tables.entry_of(parent).unwrap());
    loaded.learn(state, party, r);
    append(tables, n, r, depth, ek);
    Entry {
        certificate: r as u16,
        parent: parent as u16,
        depth,
    }
}
