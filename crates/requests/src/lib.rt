// Requests: what a desk reads of a request and its certificates, and the parts of its tests.
#![tactic(auto)]

ghost use Rattle.std.specs.Prelude.{◌≡◌, ◌<◌, ℕ, length, IfOk};
ghost use Rattle.rules.specs.Codes.{number_in, kind_number};
ghost use Rattle.rules.specs.Limits.{party_limit, term_limit};
ghost use Rattle.rules.specs.Term.{certificate_kind, is_tpm_subject, is_device_subject};
ghost use Rattle.rules.specs.File.{kind, message, signing_key, attested_key};
ghost use Rattle.rules.specs.Desk.{form_tests, proof_tests};
ghost use Rattle.theorems.specs.Chain.{chain};
ghost use Rattle.loaded.specs.Loaded.{file_in};
ghost use Rattle.requests.specs.Names.{Names};
ghost use Rattle.requests.specs.Tests.{endorsement_tests, credential_tests, called_tests, attest_tests, parentage_tests};

use loaded::{Certificate, Credential, Loaded};
use rules::{Attributes, Family, Refusal, Role, Subject, TermKind, ensure};

// A request: its body, what its signature's hash is of, and the private key that signed.
#[derive(Clone, Copy)]
pub struct Request {
    pub body: usize,
    pub content: usize,
    pub signer: usize,
}

// The form of a request: a pair of its body and a signature over a hash.
#[tactic(auto, using(crate::proofs::Within::within), unfolding(theorems::specs::Chain::chain, rules::specs::Desk::form_tests, rules::specs::Desk::request_body, rules::specs::Desk::request_signature))]
pub fn form(loaded: &Loaded, q: usize, expected: TermKind) -> Result<Request, Refusal>
    requires { q < length (file_in loaded.now.file.now).terms }
    ensures decides { number_in result ≡ chain (form_tests (file_in loaded.now.file.now) (kind_number expected) q) }
    ensures names { IfOk result (λ r. Names (file_in loaded.now.file.now) q r.body r.content r.signer) }
    ensures body { IfOk result (λ r. kind (file_in loaded.now.file.now) r.body ≡ kind_number expected) }
{
    ensure(loaded.is_kind(q, TermKind::Pair), Refusal::RequestForm)?;
    let request = loaded.pair(q);
    ensure(loaded.is_kind(request.left, expected), Refusal::RequestForm)?;
    ensure(
        loaded.is_kind(request.right, TermKind::Signature),
        Refusal::RequestForm,
    )?;
    let signature = loaded.signature(request.right);
    ensure(
        loaded.is_kind(signature.message, TermKind::Hash),
        Refusal::RequestForm,
    )?;
    Ok(Request {
        body: request.left,
        content: loaded.hashed_term(signature.message),
        signer: signature.key,
    })
}

// The proof of a key: the signature is over the body's hash, by the key's private half.
#[tactic(auto, using(loaded::proofs::Reading::pair_read), unfolding(theorems::specs::Chain::chain, rules::specs::Desk::proof_tests, rules::specs::Desk::request_body, rules::specs::Desk::request_signature))]
pub fn proof_of_key(loaded: &Loaded, request: Request, key: usize) -> Result<(), Refusal>
    requires { (key < term_limit) × (request.signer < term_limit) }
    ensures { (q : ℕ) → key < length (file_in loaded.now.file.now).terms → Names (file_in loaded.now.file.now) q request.body request.content request.signer → number_in result ≡ chain (proof_tests (file_in loaded.now.file.now) q key) }
{
    ensure(request.content == request.body, Refusal::NoProof)?;
    ensure(loaded.is_half(key, request.signer), Refusal::NoProof)
}

// Whether a Subject is a TPM.
#[tactic(auto, unfolding(rules::specs::Term::is_tpm_subject))]
fn is_tpm(named: Subject) -> bool
    ensures { result ≡ is_tpm_subject named }
{
    matches!(named, Subject::Tpm(_))
}

// Whether a Subject is a device.
#[tactic(auto, unfolding(rules::specs::Term::is_device_subject))]
pub fn is_device(named: Subject) -> bool
    ensures { result ≡ is_device_subject named }
{
    matches!(named, Subject::Device(_))
}

// The endorsement of a challenge: a TPM's certificate by a TPM maker, and the attributes of both keys.
#[tactic(auto, unfolding(crate::specs::Tests::endorsement_tests, theorems::specs::Chain::chain))]
pub fn endorsement(loaded: &Loaded, certificate: Certificate, iak: usize) -> Result<(), Refusal>
    requires { (certificate.key < length (file_in loaded.now.file.now).terms) × (iak < length (file_in loaded.now.file.now).terms) }
    ensures { number_in result ≡ chain (endorsement_tests (file_in loaded.now.file.now) certificate.subject certificate.signer iak certificate.key) }
{
    ensure(is_tpm(certificate.subject), Refusal::CertificateSigner)?;
    ensure(
        loaded.signs_for_role(Role::TpmMaker, certificate.signer),
        Refusal::CertificateSigner,
    )?;
    ensure(
        loaded.has_attributes(iak, Attributes::iak()),
        Refusal::KeyAttributes,
    )?;
    ensure(
        loaded.has_attributes(certificate.key, Attributes::ek()),
        Refusal::KeyAttributes,
    )
}

// The credential of a challenge: over the hash of the IAK, to the EK.
#[tactic(auto, unfolding(crate::specs::Tests::credential_tests, theorems::specs::Chain::chain))]
pub fn credential_names(
    loaded: &Loaded,
    credential: Credential,
    iak: usize,
    ek: usize,
) -> Result<(), Refusal>
    requires { credential.content < length (file_in loaded.now.file.now).terms }
    ensures { number_in result ≡ chain (credential_tests (file_in loaded.now.file.now) credential.content credential.key iak ek) }
{
    ensure(
        loaded.is_kind(credential.content, TermKind::Hash),
        Refusal::NotCalledFor,
    )?;
    ensure(
        loaded.hashed_term(credential.content) == iak,
        Refusal::NotCalledFor,
    )?;
    ensure(credential.key == ek, Refusal::NotCalledFor)
}

// Whether a certificate is the one called for: of the key, for the Subject, by the desk.
#[tactic(auto, using(crate::proofs::Within::within), unfolding(crate::specs::Tests::called_tests, theorems::specs::Chain::chain, rules::specs::Term::same_subject))]
pub fn called_for(
    loaded: &Loaded,
    party: usize,
    r: usize,
    key: usize,
    wanted: Subject,
) -> Result<(), Refusal>
    requires { (party < party_limit) × (kind (file_in loaded.now.file.now) r ≡ certificate_kind) }
    ensures { number_in result ≡ chain (called_tests (file_in loaded.now.file.now) party r key wanted) }
{
    let certificate = loaded.certificate(r);
    ensure(certificate.key == key, Refusal::NotCalledFor)?;
    ensure(certificate.subject == wanted, Refusal::NotCalledFor)?;
    ensure(
        loaded.signs(party, certificate.signer),
        Refusal::NotCalledFor,
    )
}

// The message of an LDevID request, a signature over an attest: the attested key and the private key that signed.
#[derive(Clone, Copy)]
pub struct Attested {
    pub key: usize,
    pub signer: usize,
}

#[tactic(auto, using(crate::proofs::Within::within), unfolding(crate::specs::Tests::attest_tests, theorems::specs::Chain::chain))]
pub fn attested_by(loaded: &Loaded, t: usize) -> Result<Attested, Refusal>
    requires { t < length (file_in loaded.now.file.now).terms }
    ensures decides { number_in result ≡ chain (attest_tests (file_in loaded.now.file.now) t) }
    ensures names { IfOk result (λ a. (a.key ≡ attested_key (file_in loaded.now.file.now) (message (file_in loaded.now.file.now) t)) × (a.signer ≡ signing_key (file_in loaded.now.file.now) t)) }
    ensures declared { IfOk result (λ a. (a.key < length (file_in loaded.now.file.now).terms) × (a.signer < length (file_in loaded.now.file.now).terms)) }
{
    ensure(loaded.is_kind(t, TermKind::Signature), Refusal::RequestForm)?;
    let signature = loaded.signature(t);
    ensure(
        loaded.is_kind(signature.message, TermKind::Attest),
        Refusal::RequestForm,
    )?;
    Ok(Attested {
        key: loaded.attested_key(signature.message),
        signer: signature.key,
    })
}

// The parentage of a new key: its attest by the key of a certificate that a desk signed, and the attributes of both
// keys, as its family asks.
#[tactic(auto, unfolding(crate::specs::Tests::parentage_tests, theorems::specs::Chain::chain))]
pub fn parentage(
    loaded: &Loaded,
    family: Family,
    half: usize,
    new: usize,
    certificate: Certificate,
) -> Result<(), Refusal>
    requires { (half < length (file_in loaded.now.file.now).terms) × (new < length (file_in loaded.now.file.now).terms) × (certificate.key < length (file_in loaded.now.file.now).terms) }
    ensures { number_in result ≡ chain (parentage_tests (file_in loaded.now.file.now) family half new certificate.key certificate.signer) }
{
    ensure(loaded.is_pair(certificate.key, half), Refusal::NoProof)?;
    ensure(
        loaded.signs_for_some(family.signers, certificate.signer),
        Refusal::CertificateSigner,
    )?;
    ensure(
        loaded.has_attributes(new, family.key),
        Refusal::KeyAttributes,
    )?;
    ensure(
        loaded.has_attributes(certificate.key, family.parent),
        Refusal::KeyAttributes,
    )
}
