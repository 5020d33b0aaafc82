// What the code keeps of a loaded file, and what it reads of it.
#![tactic(auto, using(crate::proofs::Reading::field_read), unfolding(rules::specs::File::hashed_term, rules::specs::File::message, rules::specs::File::signing_key, rules::specs::File::attested_key, rules::specs::File::credential_term, rules::specs::File::credential_number, rules::specs::File::credential_key, rules::specs::File::idevid_certificate, rules::specs::File::idevid_key, rules::specs::File::ldevid_message, rules::specs::File::ldevid_certificate, rules::specs::File::certified_key, rules::specs::File::signer, rules::specs::File::left_of, rules::specs::File::right_of, rules::specs::File::register_of, rules::specs::File::quoted_value, rules::specs::File::quote_number))]

ghost use Rattle.std.specs.Prelude.{◌≡◌, ◌+◌, ◌*◌, ◌<◌, ◌≤◌, eqb, length};
ghost use Rattle.rules.specs.Limits.{party_limit, term_limit, state_bytes};
ghost use Rattle.rules.specs.Codes.{role_number, kind_number};
ghost use Rattle.rules.specs.Attributes.{same_attributes};
ghost use Rattle.rules.specs.Term.{idevid_request_kind, certificate_kind};
ghost use Rattle.rules.specs.File.{is_role, is_kind, term, kind, field, subject, attributes, paired, half_in, signs_for, signs_for_role, signs_for_some, hashed_term, message, signing_key, attested_key, credential_term, credential_number, credential_key, idevid_certificate, idevid_key, ldevid_message, ldevid_certificate, certified_key, signer, left_of, right_of, register_of, quoted_value, quote_number};
ghost use Rattle.rules.specs.Device.{key_has};
ghost use Rattle.state.specs.View.{view};
ghost use Rattle.tables.specs.Columns.{field_words, tables_in};
ghost use Rattle.checks.specs.There.{role_there};
ghost use Rattle.index.specs.Indexed.{passes};
ghost use Rattle.loaded.specs.Loaded.{file_in, Reads, Holds, Learns, has_some};

use crate::as_noted::{certificate_noted, idevid_request_noted};
use crate::terms::{Certificate, Credential, IdevidRequest, LdevidRequest, Pair, Quote, Signature};
use rules::{Attributes, Role, Signers, Term, TermKind};
use tables::Tables;

// The bytes of a file that loads, and the tables by which its terms are read.
#[derive(Clone, Copy)]
pub struct Loaded<'a> {
    pub file: &'a [u8],
    pub tables: &'a Tables,
    pub ghost reads: { Reads file.now tables.now },
}

// Whether the role byte that stands where a party's record does is a role's, declared or not.
pub fn role_stands(file: &[u8], party: usize, role: Role) -> bool
    requires { 2 * party + 1 < length file.now }
    ensures { result ≡ eqb (role_there file.now party) (role_number role) }
{
    checks::role_of(file, party) == role.number()
}

impl<'a> Loaded<'a> {
    // Whether a party has a role.
    #[tactic(auto, using(crate::proofs::Reading::role_read, crate::proofs::Reading::role_room), unfolding(rules::specs::File::is_role))]
    pub fn is_role(&self, party: usize, role: Role) -> bool
        requires { party < length (file_in self.now.file.now).roles }
        ensures { result ≡ is_role (file_in self.now.file.now) (role_number role) party }
    {
        role_stands(self.file, party, role)
    }

    // Whether a term is of a kind.
    #[tactic(auto, using(crate::proofs::Reading::kind_read))]
    pub fn is_kind(&self, t: usize, kind: TermKind) -> bool
        requires { t < length (file_in self.now.file.now).terms }
        ensures { result ≡ is_kind (file_in self.now.file.now) (kind_number kind) t }
    {
        self.tables.kind_of(t) == kind.number() as u16
    }

    // A field of a term.
    pub fn field(&self, t: usize, i: usize) -> usize
        requires { (t < length (file_in self.now.file.now).terms) × (i < field_words) }
        ensures { result ≡ field (file_in self.now.file.now) t i }
    {
        self.tables.field_of(t, i) as usize
    }

    // The attributes of a key, as a number; 0 of another term.
    #[tactic(auto, using(crate::proofs::Reading::key_bits, crate::proofs::Reading::other_bits))]
    pub fn attribute_bits(&self, t: usize) -> u16
        requires { t < length (file_in self.now.file.now).terms }
        ensures { result ≡ (attributes (file_in self.now.file.now) t).bits }
    {
        if self.tables.kind_of(t) <= TermKind::PrivateKey.number() as u16 {
            self.tables.field_of(t, 1)
        } else {
            0
        }
    }

    // Whether a key has exactly these attributes.
    #[tactic(auto, unfolding(rules::specs::Attributes::same_attributes))]
    pub fn has_attributes(&self, t: usize, wanted: Attributes) -> bool
        requires { t < length (file_in self.now.file.now).terms }
        ensures { result ≡ same_attributes (attributes (file_in self.now.file.now) t) wanted }
    {
        self.attribute_bits(t) == wanted.bits as u16
    }

    // Whether a key has one of the four attributes.
    #[tactic(auto, unfolding(rules::specs::Device::key_has, rules::specs::Attributes::has))]
    pub fn key_has(&self, t: usize, flag: u8) -> bool
        requires { (t < length (file_in self.now.file.now).terms) × (0 < flag) }
        ensures { result ≡ key_has (file_in self.now.file.now) t flag }
    {
        self.attribute_bits(t) / flag as u16 % 2 == 1
    }

    // Whether a term is noted as the private half of a key.
    #[tactic(auto, using(crate::proofs::Reading::some_is))]
    pub fn is_half(&self, key: usize, half: usize) -> bool
        requires { key < term_limit }
        ensures { result ≡ eqb ((tables_in self.now.tables.now).half key) (half + 1) }
    {
        self.tables.half_of(key) == Some(half)
    }

    // Whether a public and a private key are a pair.
    #[tactic(auto, using(crate::proofs::Reading::pair_read, crate::proofs::Reading::few_read))]
    pub fn is_pair(&self, key: usize, half: usize) -> bool
        requires { (key < length (file_in self.now.file.now).terms) × (half < length (file_in self.now.file.now).terms) }
        ensures { result ≡ paired (file_in self.now.file.now) key half }
    {
        self.is_half(key, half)
    }

    // Whether a party's TPM holds the private half of a public key: the one that is noted, which is a declared key's own.
    #[tactic(auto, using(crate::proofs::Reading::halves))]
    pub fn holds_half(&self, state: &[u8], party: usize, key: usize) -> bool
        requires { (state_bytes ≤ length state.now) × (party < party_limit) × (key < term_limit) }
        ensures noted { result ≡ passes ((view state.now).table party) ((tables_in self.now.tables.now).half key) }
        ensures half { key < length (file_in self.now.file.now).terms → result ≡ half_in (file_in self.now.file.now) ((view state.now).table party) key }
    {
        match self.tables.half_of(key) {
            Some(half) => state::in_table(state, party, half),
            None => false,
        }
    }

    // Whether a key is the signing key of a party.
    #[tactic(auto, using(crate::proofs::Reading::signs_read, crate::proofs::Reading::some_is))]
    pub fn signs(&self, party: usize, key: usize) -> bool
        requires { party < party_limit }
        ensures { result ≡ signs_for (file_in self.now.file.now) party key }
    {
        self.tables.signer_of(party) == Some(key)
    }

    // Whether a key is the signing key of a party of a role.
    pub fn signs_for_role(&self, role: Role, key: usize) -> bool
        ensures { result ≡ signs_for_role (file_in self.now.file.now) (role_number role) key }
    {
        for p in 0..rules::PARTY_LIMIT {
            if self.signs(p, key) && self.is_role(p, role) {
                return true;
            }
        }
        false
    }

    // Whether a party is one who may sign.
    #[tactic(auto, using(crate::proofs::Reading::role_read, crate::proofs::Reading::role_room), unfolding(rules::specs::File::is_role))]
    fn has_some(&self, party: usize, who: Signers) -> bool
        requires { party < length (file_in self.now.file.now).roles }
        ensures { result ≡ has_some (file_in self.now.file.now) who party }
    {
        let role = checks::role_of(self.file, party);
        who.maker && role == Role::TpmMaker.number()
            || who.oem && role == Role::OemDesk.number()
            || who.owner && role == Role::OwnerDesk.number()
    }

    // Whether a key is the signing key of one who may sign, in one walk.
    pub fn signs_for_some(&self, who: Signers, key: usize) -> bool
        ensures { result ≡ signs_for_some (file_in self.now.file.now) who key }
    {
        for party in 0..rules::PARTY_LIMIT {
            if self.signs(party, key) && self.has_some(party, who) {
                return true;
            }
        }
        false
    }

    // What a hash is of.
    pub fn hashed_term(&self, t: usize) -> usize
        requires { t < length (file_in self.now.file.now).terms }
        ensures { result ≡ hashed_term (file_in self.now.file.now) t }
    {
        self.field(t, 0) // the term
    }

    // A signature.
    pub fn signature(&self, t: usize) -> Signature
        requires { t < length (file_in self.now.file.now).terms }
        ensures message { result.message ≡ message (file_in self.now.file.now) t }
        ensures key { result.key ≡ signing_key (file_in self.now.file.now) t }
    {
        Signature {
            message: self.field(t, 0),
            key: self.field(t, 1),
        }
    }

    // The attested public key.
    pub fn attested_key(&self, t: usize) -> usize
        requires { t < length (file_in self.now.file.now).terms }
        ensures { result ≡ attested_key (file_in self.now.file.now) t }
    {
        self.field(t, 0) // the key
    }

    // A credential.
    pub fn credential(&self, t: usize) -> Credential
        requires { t < length (file_in self.now.file.now).terms }
        ensures content { result.content ≡ credential_term (file_in self.now.file.now) t }
        ensures number { result.number ≡ credential_number (file_in self.now.file.now) t }
        ensures key { result.key ≡ credential_key (file_in self.now.file.now) t }
    {
        Credential {
            content: self.field(t, 0),
            number: self.field(t, 1),
            key: self.field(t, 2),
        }
    }

    // An IDevID request as a term.
    pub fn idevid_request_of(&self, t: usize) -> Term
        requires { kind (file_in self.now.file.now) t ≡ idevid_request_kind }
        ensures { result ≡ term (file_in self.now.file.now) t }
    {
        idevid_request_noted(self.tables, t)
    }

    // An IDevID request.
    pub fn idevid_request(&self, t: usize) -> IdevidRequest
        requires { kind (file_in self.now.file.now) t ≡ idevid_request_kind }
        ensures subject { result.subject ≡ subject (file_in self.now.file.now) t }
        ensures certificate { result.certificate ≡ idevid_certificate (file_in self.now.file.now) t }
        ensures key { result.key ≡ idevid_key (file_in self.now.file.now) t }
        ensures declared { result.key < length (file_in self.now.file.now).terms }
    {
        let Term::IdevidRequest(subject, certificate, key) = self.idevid_request_of(t) else {
            unreachable!()
        };
        IdevidRequest {
            subject,
            certificate: certificate as usize,
            key: key as usize,
        }
    }

    // An LDevID request.
    pub fn ldevid_request(&self, t: usize) -> LdevidRequest
        requires { t < length (file_in self.now.file.now).terms }
        ensures message { result.message ≡ ldevid_message (file_in self.now.file.now) t }
        ensures certificate { result.certificate ≡ ldevid_certificate (file_in self.now.file.now) t }
    {
        LdevidRequest {
            message: self.field(t, 0),
            certificate: self.field(t, 1),
        }
    }

    // A certificate as a term.
    pub fn certificate_of(&self, t: usize) -> Term
        requires { kind (file_in self.now.file.now) t ≡ certificate_kind }
        ensures { result ≡ term (file_in self.now.file.now) t }
    {
        certificate_noted(self.tables, t)
    }

    // A certificate.
    pub fn certificate(&self, t: usize) -> Certificate
        requires { kind (file_in self.now.file.now) t ≡ certificate_kind }
        ensures key { result.key ≡ certified_key (file_in self.now.file.now) t }
        ensures subject { result.subject ≡ subject (file_in self.now.file.now) t }
        ensures signer { result.signer ≡ signer (file_in self.now.file.now) t }
    {
        let Term::Certificate(certified, subject, signer) = self.certificate_of(t) else {
            unreachable!()
        };
        Certificate {
            key: certified as usize,
            subject,
            signer: signer as usize,
        }
    }

    // The two terms of a pair.
    pub fn pair(&self, t: usize) -> Pair
        requires { t < length (file_in self.now.file.now).terms }
        ensures left { result.left ≡ left_of (file_in self.now.file.now) t }
        ensures right { result.right ≡ right_of (file_in self.now.file.now) t }
    {
        Pair {
            left: self.field(t, 0),
            right: self.field(t, 1),
        }
    }

    // The register of a 1B term.
    pub fn register(&self, t: usize) -> usize
        requires { t < length (file_in self.now.file.now).terms }
        ensures { result ≡ register_of (file_in self.now.file.now) t }
    {
        self.field(t, 0) // the register
    }

    // A quote body.
    pub fn quote(&self, t: usize) -> Quote
        requires { t < length (file_in self.now.file.now).terms }
        ensures register { result.register ≡ register_of (file_in self.now.file.now) t }
        ensures value { result.value ≡ quoted_value (file_in self.now.file.now) t }
        ensures number { result.number ≡ quote_number (file_in self.now.file.now) t }
    {
        Quote {
            register: self.field(t, 0),
            value: self.field(t, 1),
            number: self.field(t, 2),
        }
    }

    // A party learns a term and everything in it; one that it knows needs no opening.
    pub fn learn(&self, state: &mut [u8], party: usize, t: usize)
        requires { Holds self.now.file.now state.old × (party < length (file_in self.now.file.now).roles) × (t < length (file_in self.now.file.now).terms) }
        ensures { Learns self.now.file.now state.old state.new party t }
    {
        if !state::knows(state, party, t) {
            learning::learn_term(self.tables, state, party, t);
        }
    }
}
