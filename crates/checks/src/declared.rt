// Records checked by the parties and the terms declared so far: refusals 3 to 8.

ghost use Rattle.std.specs.Prelude.{◌≡◌, ◌⊎◌, true, [], ◌∷◌, ℕ, ◌+◌, ◌<◌, ◌≤◌, ltb, length, get_or};
ghost use Rattle.rules.specs.declared.Field.TheVariants.{IdentifierField, AttributesField, SubjectField, PartyField, AnyTerm, TermOf, IakPairField, RegisterField, HashedPair, SignedQuote};
ghost use Rattle.rules.specs.Codes.{number_in, kind_number};
ghost use Rattle.rules.specs.Term.{public_key_kind, private_key_kind, hash_kind, signature_kind, credential_kind, certificate_kind};
ghost use Rattle.rules.specs.Record.{section_of, fields_of, body_length, width as width_of, word, command_section};
ghost use Rattle.rules.specs.Load.{refuse_unless};
ghost use Rattle.tables.specs.Columns.{tables_in};
ghost use Rattle.learning.specs.Noted.{TermsNoted};
ghost use Rattle.checks.specs.There.{head_fault, inner_fault_noted, field_fault_noted};
ghost use Rattle.checks.specs.Fields.{fields_fault_noted, Plain};

use rules::{Attributes, Field, Refusal, TermKind};
use tables::Tables;

// 7 where a number is not below a limit.
#[tactic(auto, unfolding(rules::specs::Load::refuse_unless))]
fn check_range(n: usize, limit: usize) -> Result<(), Refusal>
    ensures { number_in result ≡ refuse_unless 7 (ltb n limit) }
{
    if n < limit {
        Ok(())
    } else {
        Err(Refusal::FieldRange)
    }
}

// What a command from 30 to 37 makes: the last of its two fields, read by the kind from a row of constants, which costs
// less than `records::fields_of`.
fn made_field(kind: u8) -> Field
    requires { (0x30 ≤ kind) × (kind ≤ 0x37) }
    ensures { fields_of kind ≡ PartyField ∷ result ∷ [] }
{
    let made: &'static [Field] = &[
        Field::TermOf(0x12),
        Field::TermOf(0x13),
        Field::SignedAttest,
        Field::TermOf(0x15),
        Field::TermOf(0x15),
        Field::TermOf(0x17),
        Field::TermOf(0x18),
        Field::TermOf(0x1A),
    ];
    made[(kind - 0x30) as usize]
}

// How many parties are declared, and how many terms, which the tables have.
#[derive(Clone, Copy)]
pub struct Declared<'a> {
    pub tables: &'a Tables,
    pub parties: usize,
    pub terms: usize,
    pub ghost noted: { TermsNoted (tables_in tables.now).terms terms },
}

impl<'a> Declared<'a> {
    // 3 to 6 at a record, by its kind's section and the place where it ends.
    #[tactic(auto, unfolding(crate::specs::There::head_fault, rules::specs::Load::refuse_unless))]
    pub fn check_head(&self, own: u8, end: usize, length: usize, section: u8) -> Result<(), Refusal>
        ensures { number_in result ≡ head_fault own end length section self.now.parties self.now.terms }
    {
        if own == 0 {
            return Err(Refusal::KindUnknown);
        }
        if length < end {
            return Err(Refusal::CutShort);
        }
        if own < section {
            return Err(Refusal::SectionOrder);
        }
        if own == 1 && rules::PARTY_LIMIT <= self.parties {
            return Err(Refusal::TooMany);
        }
        if own == 2 && rules::TERM_LIMIT <= self.terms {
            return Err(Refusal::TooMany);
        }
        Ok(())
    }

    // 7 at a term number in the body that is not declared.
    fn check_term(&self, body: &[u8], i: usize) -> Result<(), Refusal>
        requires { i + 1 < length body.now }
        ensures { number_in result ≡ refuse_unless 7 (ltb (word body.now i) self.now.terms) }
    {
        check_range(records::word_at(body, i) as usize, self.terms)
    }

    // 7, 8 at a term in the body that has to be of a kind.
    #[tactic(auto, unfolding(crate::specs::There::field_fault_noted, rules::specs::Load::first, rules::specs::Load::refuse_unless))]
    fn check_kind(&self, body: &[u8], i: usize, kind: u8) -> Result<(), Refusal>
        requires { i + 1 < length body.now }
        ensures { number_in result ≡ field_fault_noted (tables_in self.now.tables.now).terms self.now.parties self.now.terms (TermOf kind) i body.now }
    {
        self.check_term(body, i)?;
        let t = records::word_at(body, i) as usize;
        if self.tables.kind_of(t) == kind as u16 {
            Ok(())
        } else {
            Err(Refusal::TermKind)
        }
    }

    // 7, 8 at a hash of a term of a kind in the body, or a signature over one.
    #[tactic(auto, using(crate::proofs::Records::kind_passed), unfolding(crate::specs::There::field_fault_noted, rules::specs::Load::first, rules::specs::Load::refuse_unless))]
    fn check_inner(
        &self,
        body: &[u8],
        i: usize,
        outer: TermKind,
        inner: TermKind,
    ) -> Result<(), Refusal>
        requires { (i + 1 < length body.now) × ((kind_number outer ≡ hash_kind) ⊎ (kind_number outer ≡ signature_kind)) }
        ensures { number_in result ≡ inner_fault_noted (tables_in self.now.tables.now).terms self.now.terms (kind_number outer) (kind_number inner) (word body.now i) }
    {
        self.check_kind(body, i, outer.number())?;
        let t = records::word_at(body, i) as usize;
        let content = self.tables.field_of(t, 0) as usize;
        if self.tables.kind_of(content) == inner.number() as u16 {
            Ok(())
        } else {
            Err(Refusal::TermKind)
        }
    }

    // 7, 8 at a credential and a certificate in the body, or an empty pair.
    #[tactic(auto, unfolding(crate::specs::There::field_fault_noted, rules::specs::Load::first, rules::specs::Load::refuse_unless))]
    fn check_pair(&self, body: &[u8], i: usize) -> Result<(), Refusal>
        requires { i + 3 < length body.now }
        ensures { number_in result ≡ field_fault_noted (tables_in self.now.tables.now).terms self.now.parties self.now.terms IakPairField i body.now }
    {
        if crate::empty_pair(body, i) {
            return Ok(());
        }
        self.check_kind(body, i, TermKind::Credential.number())?;
        self.check_kind(body, i + 2, TermKind::Certificate.number())
    }

    // 7, 8 at a field of a body.
    #[tactic(auto, unfolding(crate::specs::There::field_fault_noted, rules::specs::Record::width))]
    pub fn check_field(&self, field: Field, body: &[u8], i: usize) -> Result<(), Refusal>
        requires { i + width_of field ≤ length body.now }
        ensures { number_in result ≡ field_fault_noted (tables_in self.now.tables.now).terms self.now.parties self.now.terms field i body.now }
    {
        match field {
            Field::RoleField => check_range(body[i] as usize, rules::ROLE_COUNT),
            Field::IdentifierField => Ok(()),
            Field::AttributesField => check_range(body[i] as usize, Attributes::LIMIT),
            Field::SubjectField => check_range(body[i] as usize, 2),
            Field::PartyField => check_range(body[i] as usize, self.parties),
            Field::AnyTerm => self.check_term(body, i),
            Field::TermOf(kind) => self.check_kind(body, i, kind),
            Field::SignedAttest => self.check_inner(body, i, TermKind::Signature, TermKind::Attest),
            Field::IakPairField => self.check_pair(body, i),
            Field::RegisterField => check_range(body[i] as usize, rules::REGISTER_COUNT),
            Field::HashedPair => self.check_inner(body, i, TermKind::Hash, TermKind::Pair),
            Field::SignedQuote => self.check_inner(body, i, TermKind::Signature, TermKind::Quote),
        }
    }

    // The fields of a 10 or a 11.
    #[tactic(auto, using(crate::proofs::Fields::refused_some), unfolding(crate::specs::There::field_fault_noted, crate::specs::Fields::fields_fault_noted, rules::specs::Load::first, rules::specs::Record::width))]
    fn check_key(&self, body: &[u8]) -> Result<(), Refusal>
        requires { 3 ≤ length body.now }
        ensures { (parties : ℕ) → number_in result ≡ fields_fault_noted (tables_in self.now.tables.now).terms parties self.now.terms (IdentifierField ∷ AttributesField ∷ []) 0 body.now }
    {
        check_range(body[2] as usize, Attributes::LIMIT)
    }

    // Of a 13.
    #[tactic(auto, using(crate::proofs::Fields::refused_some), unfolding(crate::specs::There::field_fault_noted, crate::specs::Fields::fields_fault_noted, rules::specs::Load::first, rules::specs::Record::width))]
    fn check_signature(&self, body: &[u8]) -> Result<(), Refusal>
        requires { 4 ≤ length body.now }
        ensures { (parties : ℕ) → number_in result ≡ fields_fault_noted (tables_in self.now.tables.now).terms parties self.now.terms (AnyTerm ∷ TermOf private_key_kind ∷ []) 0 body.now }
    {
        self.check_term(body, 0)?;
        self.check_kind(body, 2, TermKind::PrivateKey.number())
    }

    // Of a 19.
    #[tactic(auto, using(crate::proofs::Fields::refused_some), unfolding(crate::specs::There::field_fault_noted, crate::specs::Fields::fields_fault_noted, rules::specs::Load::first, rules::specs::Record::width))]
    fn check_certificate(&self, body: &[u8]) -> Result<(), Refusal>
        requires { 7 ≤ length body.now }
        ensures { (parties : ℕ) → number_in result ≡ fields_fault_noted (tables_in self.now.tables.now).terms parties self.now.terms (TermOf public_key_kind ∷ SubjectField ∷ TermOf private_key_kind ∷ []) 0 body.now }
    {
        self.check_kind(body, 0, TermKind::PublicKey.number())?;
        check_range(body[2] as usize, 2)?;
        self.check_kind(body, 5, TermKind::PrivateKey.number())
    }

    // Of a 1A.
    #[tactic(auto, using(crate::proofs::Fields::refused_some), unfolding(crate::specs::There::field_fault_noted, crate::specs::Fields::fields_fault_noted, rules::specs::Load::first, rules::specs::Record::width))]
    fn check_terms(&self, body: &[u8]) -> Result<(), Refusal>
        requires { 4 ≤ length body.now }
        ensures { (parties : ℕ) → number_in result ≡ fields_fault_noted (tables_in self.now.tables.now).terms parties self.now.terms (AnyTerm ∷ AnyTerm ∷ []) 0 body.now }
    {
        self.check_term(body, 0)?;
        self.check_term(body, 2)
    }

    // Of a 20.
    #[tactic(auto, using(crate::proofs::Fields::refused_some), unfolding(crate::specs::There::field_fault_noted, crate::specs::Fields::fields_fault_noted, rules::specs::Load::first, rules::specs::Record::width))]
    fn check_taught(&self, body: &[u8]) -> Result<(), Refusal>
        requires { 3 ≤ length body.now }
        ensures { number_in result ≡ fields_fault_noted (tables_in self.now.tables.now).terms self.now.parties self.now.terms (PartyField ∷ AnyTerm ∷ []) 0 body.now }
    {
        check_range(body[0] as usize, self.parties)?;
        self.check_term(body, 1)
    }

    // Of a 21 or a 22.
    #[tactic(auto, using(crate::proofs::Fields::refused_some), unfolding(crate::specs::There::field_fault_noted, crate::specs::Fields::fields_fault_noted, rules::specs::Load::first, rules::specs::Record::width))]
    fn check_given(&self, body: &[u8]) -> Result<(), Refusal>
        requires { 3 ≤ length body.now }
        ensures { number_in result ≡ fields_fault_noted (tables_in self.now.tables.now).terms self.now.parties self.now.terms (PartyField ∷ TermOf private_key_kind ∷ []) 0 body.now }
    {
        check_range(body[0] as usize, self.parties)?;
        self.check_kind(body, 1, TermKind::PrivateKey.number())
    }

    // Of a command from 30 to 37, whose second field is the last.
    #[tactic(auto, using(crate::proofs::Fields::refused_some), unfolding(crate::specs::There::field_fault_noted, crate::specs::Fields::fields_fault_noted, rules::specs::Load::first, rules::specs::Record::width))]
    fn check_made(&self, field: Field, body: &[u8]) -> Result<(), Refusal>
        requires { 1 + width_of field ≤ length body.now }
        ensures { number_in result ≡ fields_fault_noted (tables_in self.now.tables.now).terms self.now.parties self.now.terms (PartyField ∷ field ∷ []) 0 body.now }
    {
        check_range(body[0] as usize, self.parties)?;
        if let Field::TermOf(kind) = field {
            return self.check_kind(body, 1, kind);
        }
        if let Field::SignedAttest = field {
            return self.check_inner(body, 1, TermKind::Signature, TermKind::Attest);
        }
        self.check_field(field, body, 1)
    }

    // Of a 3C.
    #[tactic(auto, using(crate::proofs::Fields::refused_some), unfolding(crate::specs::There::field_fault_noted, crate::specs::Fields::fields_fault_noted, rules::specs::Load::first, rules::specs::Record::width))]
    fn check_sent(&self, body: &[u8]) -> Result<(), Refusal>
        requires { 4 ≤ length body.now }
        ensures { number_in result ≡ fields_fault_noted (tables_in self.now.tables.now).terms self.now.parties self.now.terms (PartyField ∷ PartyField ∷ AnyTerm ∷ []) 0 body.now }
    {
        check_range(body[0] as usize, self.parties)?;
        check_range(body[1] as usize, self.parties)?;
        self.check_term(body, 2)
    }

    // Of a 3F.
    #[tactic(auto, using(crate::proofs::Fields::refused_some), unfolding(crate::specs::There::field_fault_noted, crate::specs::Fields::fields_fault_noted, rules::specs::Load::first, rules::specs::Record::width))]
    fn check_return(&self, body: &[u8]) -> Result<(), Refusal>
        requires { 6 ≤ length body.now }
        ensures { number_in result ≡ fields_fault_noted (tables_in self.now.tables.now).terms self.now.parties self.now.terms (PartyField ∷ PartyField ∷ TermOf credential_kind ∷ TermOf certificate_kind ∷ []) 0 body.now }
    {
        check_range(body[0] as usize, self.parties)?;
        check_range(body[1] as usize, self.parties)?;
        self.check_kind(body, 2, TermKind::Credential.number())?;
        self.check_kind(body, 4, TermKind::Certificate.number())
    }

    // Of a 44.
    #[tactic(auto, using(crate::proofs::Fields::refused_some), unfolding(crate::specs::There::field_fault_noted, crate::specs::Fields::fields_fault_noted, rules::specs::Load::first, rules::specs::Record::width))]
    fn check_extended(&self, body: &[u8]) -> Result<(), Refusal>
        requires { 4 ≤ length body.now }
        ensures { number_in result ≡ fields_fault_noted (tables_in self.now.tables.now).terms self.now.parties self.now.terms (PartyField ∷ RegisterField ∷ HashedPair ∷ []) 0 body.now }
    {
        check_range(body[0] as usize, self.parties)?;
        check_range(body[1] as usize, rules::REGISTER_COUNT)?;
        self.check_inner(body, 2, TermKind::Hash, TermKind::Pair)
    }

    // Of a 45.
    #[tactic(auto, using(crate::proofs::Fields::refused_some), unfolding(crate::specs::There::field_fault_noted, crate::specs::Fields::fields_fault_noted, rules::specs::Load::first, rules::specs::Record::width))]
    fn check_quoted(&self, body: &[u8]) -> Result<(), Refusal>
        requires { 3 ≤ length body.now }
        ensures { number_in result ≡ fields_fault_noted (tables_in self.now.tables.now).terms self.now.parties self.now.terms (PartyField ∷ SignedQuote ∷ []) 0 body.now }
    {
        check_range(body[0] as usize, self.parties)?;
        self.check_inner(body, 1, TermKind::Signature, TermKind::Quote)
    }

    // Of a 3E, which makes a 15, and of a command from 40 to 42, which makes a 19.
    #[tactic(auto, using(crate::proofs::Fields::refused_some), unfolding(crate::specs::There::field_fault_noted, crate::specs::Fields::fields_fault_noted, rules::specs::Load::first, rules::specs::Record::width))]
    fn check_issue(&self, body: &[u8], made: TermKind) -> Result<(), Refusal>
        requires { 5 ≤ length body.now }
        ensures { number_in result ≡ fields_fault_noted (tables_in self.now.tables.now).terms self.now.parties self.now.terms (PartyField ∷ AnyTerm ∷ TermOf (kind_number made) ∷ []) 0 body.now }
    {
        check_range(body[0] as usize, self.parties)?;
        self.check_term(body, 1)?;
        self.check_kind(body, 3, made.number())
    }

    // Of a 43: a line a pair, since the places are known.
    #[tactic(auto, using(crate::proofs::Fields::refused_some), unfolding(crate::specs::There::field_fault_noted, crate::specs::Fields::fields_fault_noted, rules::specs::Load::first, rules::specs::Record::width))]
    fn check_pairs(&self, body: &[u8]) -> Result<(), Refusal>
        requires { 18 ≤ length body.now }
        ensures { number_in result ≡ fields_fault_noted (tables_in self.now.tables.now).terms self.now.parties self.now.terms (PartyField ∷ PartyField ∷ IakPairField ∷ IakPairField ∷ IakPairField ∷ IakPairField ∷ []) 0 body.now }
    {
        check_range(body[0] as usize, self.parties)?;
        check_range(body[1] as usize, self.parties)?;
        self.check_pair(body, 2)?;
        self.check_pair(body, 6)?;
        self.check_pair(body, 10)?;
        self.check_pair(body, 14)
    }

    // Whether a body is of the most frequent terms and its fields are right, without a walk from field to field; false
    // says nothing.
    #[tactic(auto, unfolding(rules::specs::Record::section_of, rules::specs::Record::fields_of, rules::specs::Record::body_length, rules::specs::Record::widths, rules::specs::Record::width, crate::specs::There::field_fault_noted, crate::specs::Fields::fields_fault_noted, rules::specs::Load::first))]
    pub fn seen_right(&self, kind: u8, body: &[u8]) -> bool
        requires { body_length kind ≤ length body.now }
        ensures { result ≡ true → (parties : ℕ) → fields_fault_noted (tables_in self.now.tables.now).terms parties self.now.terms (fields_of kind) 0 body.now ≡ 0 }
    {
        match kind {
            0x10 | 0x11 => self.check_key(body).is_ok(),
            0x12 => self.check_term(body, 0).is_ok(),
            0x13 => self.check_signature(body).is_ok(),
            0x16 => true,
            0x19 => self.check_certificate(body).is_ok(),
            0x1A => self.check_terms(body).is_ok(),
            _ => false,
        }
    }

    // The same of the set-up records 20 to 22, by the parties declared so far.
    #[tactic(auto, unfolding(rules::specs::Record::section_of, rules::specs::Record::fields_of, rules::specs::Record::body_length, rules::specs::Record::widths, rules::specs::Record::width))]
    pub fn is_setup_right(&self, kind: u8, body: &[u8]) -> bool
        requires { body_length kind ≤ length body.now }
        ensures { result ≡ true → fields_fault_noted (tables_in self.now.tables.now).terms self.now.parties self.now.terms (fields_of kind) 0 body.now ≡ 0 }
    {
        match kind {
            0x20 => self.check_taught(body).is_ok(),
            0x21 | 0x22 => self.check_given(body).is_ok(),
            _ => false,
        }
    }

    // The same of a command from 30 to 37.
    #[tactic(auto, unfolding(rules::specs::Record::section_of, rules::specs::Record::fields_of, rules::specs::Record::body_length, rules::specs::Record::widths, rules::specs::Record::width))]
    fn is_made_right(&self, kind: u8, body: &[u8]) -> bool
        requires { (0x30 ≤ kind) × (kind ≤ 0x37) × (body_length kind ≤ length body.now) }
        ensures { result ≡ true → (section_of kind ≡ command_section) × (fields_fault_noted (tables_in self.now.tables.now).terms self.now.parties self.now.terms (fields_of kind) 0 body.now ≡ 0) }
    {
        self.check_made(made_field(kind), body).is_ok()
    }

    // The same of a command from 40 to 42.
    #[tactic(auto, unfolding(rules::specs::Record::section_of, rules::specs::Record::fields_of, rules::specs::Record::body_length, rules::specs::Record::widths, rules::specs::Record::width))]
    fn is_issue_right(&self, kind: u8, body: &[u8]) -> bool
        requires { (0x40 ≤ kind) × (kind ≤ 0x42) × (body_length kind ≤ length body.now) }
        ensures { result ≡ true → (section_of kind ≡ command_section) × (fields_fault_noted (tables_in self.now.tables.now).terms self.now.parties self.now.terms (fields_of kind) 0 body.now ≡ 0) }
    {
        self.check_issue(body, TermKind::Certificate).is_ok()
    }

    // The same of other commands.
    #[tactic(auto, unfolding(rules::specs::Record::section_of, rules::specs::Record::fields_of, rules::specs::Record::body_length, rules::specs::Record::widths, rules::specs::Record::width))]
    fn is_right(&self, kind: u8, body: &[u8]) -> bool
        requires { body_length kind ≤ length body.now }
        ensures { result ≡ true → (section_of kind ≡ command_section) × (fields_fault_noted (tables_in self.now.tables.now).terms self.now.parties self.now.terms (fields_of kind) 0 body.now ≡ 0) }
    {
        if kind == 0x3C {
            return self.check_sent(body).is_ok();
        }
        match kind {
            0x3E => self.check_issue(body, TermKind::Credential).is_ok(),
            0x3F => self.check_return(body).is_ok(),
            0x43 => self.check_pairs(body).is_ok(),
            0x44 => self.check_extended(body).is_ok(),
            0x45 => self.check_quoted(body).is_ok(),
            _ => false,
        }
    }

    // The same of the record that stands from a place to another. The kinds of which a file may have thousands come first,
    // by a branch each, as where the end was found: a jump by the kind would have to be waited for.
    pub fn is_plain(&self, file: &[u8], at: usize, end: usize) -> bool
        requires { (at < length file.now) × (end ≡ at + 1 + body_length (get_or file.now at 0)) }
        ensures { result ≡ true → Plain file.now (tables_in self.now.tables.now).terms self.now.parties self.now.terms at end }
    {
        let kind = file[at];
        if kind >= 0x30 {
            if kind <= 0x37 {
                return end <= file.len() && self.is_made_right(kind, &file[at + 1..end]);
            }
            if kind >= 0x40 && kind <= 0x42 {
                return end <= file.len() && self.is_issue_right(kind, &file[at + 1..end]);
            }
        }
        end <= file.len() && self.is_right(kind, &file[at + 1..end])
    }
}
