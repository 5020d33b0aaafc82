// Device commands: what each decides and what it leaves.
#![tactic(auto)]

ghost use Rattle.std.specs.Prelude.{◌≡◌, ◌||◌, List, ◌<◌, ◌≤◌, length, get_or, ◌+◌, OnOk, OnErr};
ghost use Rattle.rules.specs.Codes.{number_in};
ghost use Rattle.rules.specs.declared.Entry.{Entry};
ghost use Rattle.rules.specs.Record.{word};
ghost use Rattle.rules.specs.Limits.{oem_desk, owner_desk};
ghost use Rattle.rules.specs.File.{hash, sign, certify, make_credential, activate_credential, make_idevid_request, make_ldevid_request, make_pair, is_role, check_hash, check_signature, check_certificate, check_attributes, send, self_issue};
ghost use Rattle.rules.specs.Device.{both_known_tests, check_tests, may_send, may_be_sent_by_desk, no_ticket};
ghost use Rattle.theorems.proofs.Loading.{Wellformed};
ghost use Rattle.theorems.specs.Chain.{chain};
ghost use Rattle.state.specs.View.{view};
ghost use Rattle.state.proofs.Exact.{state_of};
ghost use Rattle.learning.specs.There.{kind_there};
ghost use Rattle.lookup.specs.There.{command_there};
ghost use Rattle.lookup.specs.Commands.{CommandAt};
ghost use Rattle.loaded.specs.Loaded.{file_in, Holds, Decides, Leaves};

use loaded::{Certificate, Credential, Loaded, Signature};
use rules::Refusal::{
    AttributesForbid, CheckFalse, HalfNotHeld, InputUnknown, NoTicket, RoleForbids,
};
use rules::{Attributes, Refusal, Role, TermKind, ensure};

// 30 Hash.
#[tactic(auto, using(crate::proofs::Outcomes::hash_outcome, loaded::proofs::Here::here), unfolding(rules::specs::Device::hash_tests, rules::specs::Device::device_role, theorems::specs::Chain::chain))]
pub fn decide_hash(loaded: &Loaded, state: &[u8], party: usize, r: usize) -> Result<(), Refusal>
    requires { Holds loaded.now.file.now state.now × Wellformed (file_in loaded.now.file.now) (hash party r) }
    ensures { Decides loaded.now.file.now state.now (hash party r) result }
{
    ensure(loaded.is_role(party, Role::Device), RoleForbids)?;
    ensure(
        state::knows(state, party, loaded.hashed_term(r)),
        InputUnknown,
    )
}

// 31 Sign: a Restricted key signs a 12 of this TPM's table, another key what is known.
#[tactic(auto, using(crate::proofs::Outcomes::sign_outcome, loaded::proofs::Here::here), unfolding(rules::specs::Device::sign_tests, rules::specs::Device::device_role, theorems::specs::Chain::chain))]
pub fn decide_sign(loaded: &Loaded, state: &[u8], party: usize, r: usize) -> Result<(), Refusal>
    requires { Holds loaded.now.file.now state.now × Wellformed (file_in loaded.now.file.now) (sign party r) }
    ensures { Decides loaded.now.file.now state.now (sign party r) result }
{
    ensure(loaded.is_role(party, Role::Device), RoleForbids)?;
    let Signature { message, key } = loaded.signature(r);
    let restricted = loaded.key_has(key, Attributes::RESTRICTED);
    ensure(
        restricted || state::knows(state, party, message),
        InputUnknown,
    )?;
    ensure(state::in_table(state, party, key), HalfNotHeld)?;
    ensure(loaded.key_has(key, Attributes::SIGN), AttributesForbid)?;
    ensure(
        !restricted || loaded.is_kind(message, TermKind::Hash),
        NoTicket,
    )?;
    ensure(
        !restricted || state::in_table(state, party, message),
        NoTicket,
    )
}

// 32 Certify.
#[tactic(auto, using(crate::proofs::Outcomes::certify_outcome, loaded::proofs::Here::here), unfolding(rules::specs::Device::certify_tests, rules::specs::Device::device_role, rules::specs::Device::holds_half, theorems::specs::Chain::chain))]
pub fn decide_certify(loaded: &Loaded, state: &[u8], party: usize, r: usize) -> Result<(), Refusal>
    requires { Holds loaded.now.file.now state.now × Wellformed (file_in loaded.now.file.now) (certify party r) }
    ensures { Decides loaded.now.file.now state.now (certify party r) result }
{
    ensure(loaded.is_role(party, Role::Device), RoleForbids)?;
    let Signature { message, key } = loaded.signature(r);
    ensure(state::in_table(state, party, key), HalfNotHeld)?;
    let attested = loaded.attested_key(message);
    ensure(loaded.holds_half(state, party, attested), HalfNotHeld)?;
    ensure(loaded.key_has(key, Attributes::SIGN), AttributesForbid)
}

// 33 MakeCredential.
#[tactic(auto, using(crate::proofs::Outcomes::make_credential_outcome, loaded::proofs::Here::here), unfolding(rules::specs::Device::make_credential_tests, rules::specs::Device::device_role, theorems::specs::Chain::chain))]
pub fn decide_make_credential(
    loaded: &Loaded,
    state: &[u8],
    party: usize,
    r: usize,
) -> Result<(), Refusal>
    requires { Holds loaded.now.file.now state.now × Wellformed (file_in loaded.now.file.now) (make_credential party r) }
    ensures { Decides loaded.now.file.now state.now (make_credential party r) result }
{
    ensure(loaded.is_role(party, Role::Device), RoleForbids)?;
    let made = loaded.credential(r);
    ensure(state::knows(state, party, made.content), InputUnknown)?;
    ensure(state::knows(state, party, made.number), InputUnknown)?;
    ensure(state::knows(state, party, made.key), InputUnknown)
}

// 34 ActivateCredential.
#[tactic(auto, using(crate::proofs::Outcomes::activate_outcome, loaded::proofs::Here::here), unfolding(rules::specs::File::is_kind, rules::specs::Device::activate_credential_tests, rules::specs::Device::device_role, rules::specs::Device::holds_half, theorems::specs::Chain::chain))]
pub fn decide_activate(loaded: &Loaded, state: &[u8], party: usize, r: usize) -> Result<(), Refusal>
    requires { Holds loaded.now.file.now state.now × Wellformed (file_in loaded.now.file.now) (activate_credential party r) }
    ensures { Decides loaded.now.file.now state.now (activate_credential party r) result }
{
    ensure(loaded.is_role(party, Role::Device), RoleForbids)?;
    ensure(state::knows(state, party, r), InputUnknown)?;
    let Credential { content, key, .. } = loaded.credential(r);
    ensure(loaded.holds_half(state, party, key), HalfNotHeld)?;
    ensure(loaded.is_kind(content, TermKind::Hash), HalfNotHeld)?;
    let named = loaded.hashed_term(content);
    ensure(loaded.is_kind(named, TermKind::PublicKey), HalfNotHeld)?;
    ensure(loaded.holds_half(state, party, named), HalfNotHeld)?;
    ensure(
        loaded.key_has(key, Attributes::RESTRICTED),
        AttributesForbid,
    )?;
    ensure(loaded.key_has(key, Attributes::DECRYPT), AttributesForbid)
}

// Role 0, and two terms known: what 35, 36 and 37 ask.
#[tactic(auto, using(loaded::proofs::Here::here), unfolding(rules::specs::Device::both_known_tests, rules::specs::Device::device_role, theorems::specs::Chain::chain))]
fn both_known(
    loaded: &Loaded,
    state: &[u8],
    party: usize,
    t: usize,
    u: usize,
) -> Result<(), Refusal>
    requires { Holds loaded.now.file.now state.now × (party < length (file_in loaded.now.file.now).roles) × (t < length (file_in loaded.now.file.now).terms) × (u < length (file_in loaded.now.file.now).terms) }
    ensures { (ledger : List Entry) → number_in result ≡ chain (both_known_tests (file_in loaded.now.file.now) (state_of (view state.now) ledger) party t u) }
{
    ensure(loaded.is_role(party, Role::Device), RoleForbids)?;
    ensure(state::knows(state, party, t), InputUnknown)?;
    ensure(state::knows(state, party, u), InputUnknown)
}

// 35 MakeIdevidRequest.
#[tactic(auto, using(crate::proofs::Outcomes::idevid_request_outcome, loaded::proofs::Here::here))]
pub fn decide_idevid_request(
    loaded: &Loaded,
    state: &[u8],
    party: usize,
    r: usize,
) -> Result<(), Refusal>
    requires { Holds loaded.now.file.now state.now × Wellformed (file_in loaded.now.file.now) (make_idevid_request party r) }
    ensures { Decides loaded.now.file.now state.now (make_idevid_request party r) result }
{
    let request = loaded.idevid_request(r);
    both_known(loaded, state, party, request.certificate, request.key)
}

// 36 MakeLdevidRequest.
#[tactic(auto, using(crate::proofs::Outcomes::ldevid_request_outcome, loaded::proofs::Here::here))]
pub fn decide_ldevid_request(
    loaded: &Loaded,
    state: &[u8],
    party: usize,
    r: usize,
) -> Result<(), Refusal>
    requires { Holds loaded.now.file.now state.now × Wellformed (file_in loaded.now.file.now) (make_ldevid_request party r) }
    ensures { Decides loaded.now.file.now state.now (make_ldevid_request party r) result }
{
    let request = loaded.ldevid_request(r);
    both_known(loaded, state, party, request.message, request.certificate)
}

// 37 MakePair.
#[tactic(auto, using(crate::proofs::Outcomes::pair_outcome, loaded::proofs::Here::here))]
pub fn decide_pair(loaded: &Loaded, state: &[u8], party: usize, r: usize) -> Result<(), Refusal>
    requires { Holds loaded.now.file.now state.now × Wellformed (file_in loaded.now.file.now) (make_pair party r) }
    ensures { Decides loaded.now.file.now state.now (make_pair party r) result }
{
    let pair = loaded.pair(r);
    both_known(loaded, state, party, pair.left, pair.right)
}

// Whether a party is an OEM or an owner desk.
fn is_desk(loaded: &Loaded, party: usize) -> bool
    requires { party < length (file_in loaded.now.file.now).roles }
    ensures { result ≡ (is_role (file_in loaded.now.file.now) oem_desk party || is_role (file_in loaded.now.file.now) owner_desk party) }
{
    loaded.is_role(party, Role::OemDesk) || loaded.is_role(party, Role::OwnerDesk)
}

// Whether a desk may send a term: a public key, a credential or a certificate.
#[tactic(auto, unfolding(rules::specs::Device::may_be_sent_by_desk))]
fn sent_by_desks(loaded: &Loaded, t: usize) -> bool
    requires { t < length (file_in loaded.now.file.now).terms }
    ensures { result ≡ may_be_sent_by_desk (file_in loaded.now.file.now) t }
{
    loaded.is_kind(t, TermKind::PublicKey)
        || loaded.is_kind(t, TermKind::Credential)
        || loaded.is_kind(t, TermKind::Certificate)
}

// Whether a party may send a term.
#[tactic(auto, unfolding(rules::specs::Device::may_send))]
fn may_send(loaded: &Loaded, party: usize, t: usize) -> bool
    requires { (party < length (file_in loaded.now.file.now).roles) × (t < length (file_in loaded.now.file.now).terms) }
    ensures { result ≡ may_send (file_in loaded.now.file.now) party t }
{
    loaded.is_role(party, Role::Device) || is_desk(loaded, party) && sent_by_desks(loaded, t)
}

// 3C Send, to any party.
#[tactic(auto, using(crate::proofs::Outcomes::send_outcome, loaded::proofs::Here::here), unfolding(rules::specs::Device::send_tests, theorems::specs::Chain::chain))]
pub fn decide_send(
    loaded: &Loaded,
    state: &[u8],
    party: usize,
    other: usize,
    t: usize,
) -> Result<(), Refusal>
    requires { Holds loaded.now.file.now state.now × Wellformed (file_in loaded.now.file.now) (send party other t) }
    ensures { Decides loaded.now.file.now state.now (send party other t) result }
{
    ensure(may_send(loaded, party, t), RoleForbids)?;
    ensure(state::knows(state, party, t), InputUnknown)
}

// 3D SelfIssue.
#[tactic(auto, using(crate::proofs::Outcomes::self_issue_outcome, loaded::proofs::Here::here), unfolding(rules::specs::Device::self_issue_tests, rules::specs::Device::device_role, theorems::specs::Chain::chain))]
pub fn decide_self_issue(
    loaded: &Loaded,
    state: &[u8],
    party: usize,
    r: usize,
) -> Result<(), Refusal>
    requires { Holds loaded.now.file.now state.now × Wellformed (file_in loaded.now.file.now) (self_issue party r) }
    ensures { Decides loaded.now.file.now state.now (self_issue party r) result }
{
    ensure(loaded.is_role(party, Role::Device), RoleForbids)?;
    let Certificate { key, signer, .. } = loaded.certificate(r);
    ensure(state::knows(state, party, key), InputUnknown)?;
    ensure(state::in_table(state, party, signer), HalfNotHeld)?;
    ensure(loaded.key_has(signer, Attributes::SIGN), AttributesForbid)?;
    ensure(
        !loaded.key_has(signer, Attributes::RESTRICTED),
        AttributesForbid,
    )
}

// The role, two terms known and what is checked: what 38 to 3B ask.
#[tactic(auto, using(loaded::proofs::Here::here), unfolding(rules::specs::Device::check_tests, rules::specs::Device::check_role, theorems::specs::Chain::chain))]
fn checked(
    loaded: &Loaded,
    state: &[u8],
    party: usize,
    t: usize,
    u: usize,
    right: bool,
) -> Result<(), Refusal>
    requires { Holds loaded.now.file.now state.now × (party < length (file_in loaded.now.file.now).roles) × (t < length (file_in loaded.now.file.now).terms) × (u < length (file_in loaded.now.file.now).terms) }
    ensures { (ledger : List Entry) → number_in result ≡ chain (check_tests (file_in loaded.now.file.now) (state_of (view state.now) ledger) party t u right) }
{
    ensure(
        loaded.is_role(party, Role::Device) || is_desk(loaded, party),
        RoleForbids,
    )?;
    ensure(state::knows(state, party, t), InputUnknown)?;
    ensure(state::knows(state, party, u), InputUnknown)?;
    ensure(right, CheckFalse)
}

// 38 CheckHash.
#[tactic(auto, using(crate::proofs::Outcomes::check_hash_outcome, loaded::proofs::Here::here))]
pub fn decide_check_hash(
    loaded: &Loaded,
    state: &[u8],
    party: usize,
    h: usize,
    t: usize,
) -> Result<(), Refusal>
    requires { Holds loaded.now.file.now state.now × Wellformed (file_in loaded.now.file.now) (check_hash party h t) }
    ensures { Decides loaded.now.file.now state.now (check_hash party h t) result }
{
    checked(loaded, state, party, h, t, loaded.hashed_term(h) == t)
}

// 39 CheckSignature.
#[tactic(auto, using(crate::proofs::Outcomes::check_signature_outcome, loaded::proofs::Here::here))]
pub fn decide_check_signature(
    loaded: &Loaded,
    state: &[u8],
    party: usize,
    t: usize,
    k: usize,
) -> Result<(), Refusal>
    requires { Holds loaded.now.file.now state.now × Wellformed (file_in loaded.now.file.now) (check_signature party t k) }
    ensures { Decides loaded.now.file.now state.now (check_signature party t k) result }
{
    let right = loaded.is_pair(k, loaded.signature(t).key);
    checked(loaded, state, party, t, k, right)
}

// 3A CheckCertificate.
#[tactic(auto, using(crate::proofs::Outcomes::check_certificate_outcome, loaded::proofs::Here::here))]
pub fn decide_check_certificate(
    loaded: &Loaded,
    state: &[u8],
    party: usize,
    t: usize,
    k: usize,
) -> Result<(), Refusal>
    requires { Holds loaded.now.file.now state.now × Wellformed (file_in loaded.now.file.now) (check_certificate party t k) }
    ensures { Decides loaded.now.file.now state.now (check_certificate party t k) result }
{
    let right = loaded.is_pair(k, loaded.certificate(t).signer);
    checked(loaded, state, party, t, k, right)
}

// 3B CheckAttributes.
#[tactic(auto, using(crate::proofs::Outcomes::check_attributes_outcome, loaded::proofs::Here::here))]
pub fn decide_check_attributes(
    loaded: &Loaded,
    state: &[u8],
    party: usize,
    k: usize,
    bits: u8,
) -> Result<(), Refusal>
    requires { Holds loaded.now.file.now state.now × Wellformed (file_in loaded.now.file.now) (check_attributes party k bits) }
    ensures { Decides loaded.now.file.now state.now (check_attributes party k bits) result }
{
    let right = loaded.has_attributes(k, Attributes { bits });
    checked(loaded, state, party, k, k, right)
}

// Whether a hash of a term gets no ticket: one of an attest or of a quote body.
#[tactic(auto, unfolding(rules::specs::Device::no_ticket))]
fn unticketed(loaded: &Loaded, t: usize) -> bool
    requires { t < length (file_in loaded.now.file.now).terms }
    ensures { result ≡ no_ticket (file_in loaded.now.file.now) t }
{
    loaded.is_kind(t, TermKind::Attest) || loaded.is_kind(t, TermKind::Quote)
}

// What 30 leaves: the party learns the hash, and its TPM table has it unless it is of an attest or of a quote body.
#[tactic(auto, using(loaded::proofs::Here::here))]
pub fn effect_hash(loaded: &Loaded, state: &mut [u8], party: usize, r: usize)
    requires { Holds loaded.now.file.now state.old × Wellformed (file_in loaded.now.file.now) (hash party r) }
    ensures { Leaves loaded.now.file.now state.old state.new (hash party r) }
{
    loaded.learn(state, party, r);
    if !unticketed(loaded, loaded.hashed_term(r)) {
        state::note_table(state, party, r);
    }
}

// What 34 leaves: the party learns the number.
#[tactic(auto, using(loaded::proofs::Here::here))]
pub fn effect_activate(loaded: &Loaded, state: &mut [u8], party: usize, r: usize)
    requires { Holds loaded.now.file.now state.old × Wellformed (file_in loaded.now.file.now) (activate_credential party r) }
    ensures { Leaves loaded.now.file.now state.old state.new (activate_credential party r) }
{
    loaded.learn(state, party, loaded.credential(r).number);
}

// 38 to 3B, by the record: a party and what it checks. Checks leave nothing.
#[tactic(auto, using(crate::proofs::Read::read))]
fn decide_checked(loaded: &Loaded, state: &[u8], at: usize, kind: u8) -> Result<(), Refusal>
    requires { Holds loaded.now.file.now state.now × CommandAt (Wellformed (file_in loaded.now.file.now)) loaded.now.file.now at × (kind_there loaded.now.file.now at ≡ kind) × (0x38 ≤ kind) × (kind ≤ 0x3B) }
    ensures decided { Decides loaded.now.file.now state.now (command_there loaded.now.file.now at) result }
    ensures left { Leaves loaded.now.file.now state.now state.now (command_there loaded.now.file.now at) }
{
    let file = loaded.file;
    let party = file[at + 1] as usize;
    let t = records::word_at(file, at + 2) as usize;
    if kind == 0x3B {
        return decide_check_attributes(loaded, state, party, t, file[at + 4]);
    }
    let u = records::word_at(file, at + 4) as usize;
    match kind {
        0x38 => decide_check_hash(loaded, state, party, t, u),
        0x39 => decide_check_signature(loaded, state, party, t, u),
        _ => decide_check_certificate(loaded, state, party, t, u),
    }
}

// What 31 to 33, 35 to 37 and 3D leave, by the record: the party learns what it made.
#[tactic(auto, using(crate::proofs::Read::read))]
fn effect_made(loaded: &Loaded, state: &mut [u8], at: usize, party: usize, t: usize)
    requires { Holds loaded.now.file.now state.old × CommandAt (Wellformed (file_in loaded.now.file.now)) loaded.now.file.now at × (kind_there loaded.now.file.now at < 0x3E) × ((kind_there loaded.now.file.now at ≡ 0x30 → ⊥) × (kind_there loaded.now.file.now at ≡ 0x34 → ⊥) × (0x38 ≤ kind_there loaded.now.file.now at → kind_there loaded.now.file.now at < 0x3D → ⊥)) × (party ≡ get_or loaded.now.file.now (at + 1) 0) × (t ≡ word loaded.now.file.now (at + 2)) }
    ensures { Leaves loaded.now.file.now state.old state.new (command_there loaded.now.file.now at) }
{
    loaded.learn(state, party, t);
}

// What 3C leaves, by the record: the other party learns the term.
#[tactic(auto, using(crate::proofs::Read::read))]
fn effect_send(loaded: &Loaded, state: &mut [u8], at: usize, other: usize, t: usize)
    requires { Holds loaded.now.file.now state.old × CommandAt (Wellformed (file_in loaded.now.file.now)) loaded.now.file.now at × (kind_there loaded.now.file.now at ≡ 0x3C) × (other ≡ get_or loaded.now.file.now (at + 2) 0) × (t ≡ word loaded.now.file.now (at + 3)) }
    ensures { Leaves loaded.now.file.now state.old state.new (command_there loaded.now.file.now at) }
{
    loaded.learn(state, other, t);
}

// Executes the device command at a place by its kind, a byte of the file: what it decides, and what it leaves where it
// is accepted.
#[tactic(auto, using(crate::proofs::Read::read))]
pub fn execute(loaded: &Loaded, state: &mut [u8], at: usize) -> Result<(), Refusal>
    requires { Holds loaded.now.file.now state.old × CommandAt (Wellformed (file_in loaded.now.file.now)) loaded.now.file.now at × (kind_there loaded.now.file.now at < 0x3E) }
    ensures decided { Decides loaded.now.file.now state.old (command_there loaded.now.file.now at) result }
    ensures left { OnOk result (Leaves loaded.now.file.now state.old state.new (command_there loaded.now.file.now at)) }
    ensures kept { OnErr result (state.new ≡ state.old) }
{
    let file = loaded.file;
    let kind = file[at];
    let party = file[at + 1] as usize;
    let t = records::word_at(file, at + 2) as usize;
    match kind {
        0x30 => {
            decide_hash(loaded, state, party, t)?;
            effect_hash(loaded, state, party, t);
        }
        0x31 => {
            decide_sign(loaded, state, party, t)?;
            effect_made(loaded, state, at, party, t);
        }
        0x32 => {
            decide_certify(loaded, state, party, t)?;
            effect_made(loaded, state, at, party, t);
        }
        0x33 => {
            decide_make_credential(loaded, state, party, t)?;
            effect_made(loaded, state, at, party, t);
        }
        0x34 => {
            decide_activate(loaded, state, party, t)?;
            effect_activate(loaded, state, party, t);
        }
        0x35 => {
            decide_idevid_request(loaded, state, party, t)?;
            effect_made(loaded, state, at, party, t);
        }
        0x36 => {
            decide_ldevid_request(loaded, state, party, t)?;
            effect_made(loaded, state, at, party, t);
        }
        0x37 => {
            decide_pair(loaded, state, party, t)?;
            effect_made(loaded, state, at, party, t);
        }
        0x38..=0x3B => decide_checked(loaded, state, at, kind)?,
        0x3C => {
            let other = file[at + 2] as usize;
            let sent = records::word_at(file, at + 3) as usize;
            decide_send(loaded, state, party, other, sent)?;
            effect_send(loaded, state, at, other, sent);
        }
        _ => {
            decide_self_issue(loaded, state, party, t)?;
            effect_made(loaded, state, at, party, t);
        }
    }
    Ok(())
}
