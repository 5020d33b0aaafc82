// Records and terms of a scenario file: the kind byte, the fields of a body, the fields and the key of a term.
#![tactic(auto)]

ghost use Rattle.std.specs.Prelude.{◌≡◌, [], ◌∷◌, ◌+◌, ◌<◌, ◌≤◌, length, get_or};
ghost use Rattle.rules.specs.Attributes.{has as hasFlag};
ghost use Rattle.rules.specs.Term.{register_kind, quote_kind, subject_fields, fields_in};
ghost use Rattle.rules.specs.Record.{last_kind, section_of, body_length, fields_of, width as width_of, term_section, word};
ghost use Rattle.rules.specs.Load.{term_at, subject_at};
ghost use Rattle.records.specs.Keys.{key_of, words_of};

use rules::{Attributes, Field};

// Two bytes, high byte first.
#[tactic(auto, unfolding(rules::specs::Record::word))]
pub fn word_at(s: &[u8], i: usize) -> u16
    requires { i + 1 < length s.now }
    ensures { result ≡ word s.now i }
{
    u16::from_be_bytes([s[i], s[i + 1]])
}

// The section of a kind, 0 where there is none. The kind byte is matched over ranges: the form that document 01 names.
#[tactic(auto, unfolding(rules::specs::Record::section_of))]
pub fn section_of(kind: u8) -> u8
    ensures { result ≡ section_of kind }
{
    match kind {
        0x01 => 1,
        0x10..=0x1C => 2,
        0x20..=0x22 => 3,
        0x30..=0x45 => 4,
        _ => 0,
    }
}

// The fields of a kind's body, in their order. A kind is a byte of the file, here and below: the format is bytes.
#[tactic(auto, unfolding(rules::specs::Record::section_of, rules::specs::Record::fields_of))]
pub fn fields_of(kind: u8) -> &'static [Field]
    ensures { result.now ≡ fields_of kind }
{
    match kind {
        0x01 => &[Field::RoleField],
        0x10 | 0x11 => &[Field::IdentifierField, Field::AttributesField],
        0x12 => &[Field::AnyTerm],
        0x13 => &[Field::AnyTerm, Field::TermOf(0x11)],
        0x14 => &[Field::TermOf(0x10)],
        0x15 => &[Field::AnyTerm, Field::TermOf(0x16), Field::TermOf(0x10)],
        0x16 => &[Field::IdentifierField],
        0x17 => &[
            Field::SubjectField,
            Field::TermOf(0x19),
            Field::TermOf(0x10),
        ],
        0x18 => &[Field::AnyTerm, Field::TermOf(0x19)],
        0x19 => &[
            Field::TermOf(0x10),
            Field::SubjectField,
            Field::TermOf(0x11),
        ],
        0x1A => &[Field::AnyTerm, Field::AnyTerm],
        0x1B => &[Field::RegisterField],
        0x1C => &[Field::RegisterField, Field::AnyTerm, Field::TermOf(0x16)],
        0x20 => &[Field::PartyField, Field::AnyTerm],
        0x21 | 0x22 => &[Field::PartyField, Field::TermOf(0x11)],
        0x30 => &[Field::PartyField, Field::TermOf(0x12)],
        0x31 => &[Field::PartyField, Field::TermOf(0x13)],
        0x32 => &[Field::PartyField, Field::SignedAttest],
        0x33 | 0x34 => &[Field::PartyField, Field::TermOf(0x15)],
        0x35 => &[Field::PartyField, Field::TermOf(0x17)],
        0x36 => &[Field::PartyField, Field::TermOf(0x18)],
        0x37 => &[Field::PartyField, Field::TermOf(0x1A)],
        0x38 => &[Field::PartyField, Field::TermOf(0x12), Field::AnyTerm],
        0x39 => &[Field::PartyField, Field::TermOf(0x13), Field::TermOf(0x10)],
        0x3A => &[Field::PartyField, Field::TermOf(0x19), Field::TermOf(0x10)],
        0x3B => &[
            Field::PartyField,
            Field::TermOf(0x10),
            Field::AttributesField,
        ],
        0x3C => &[Field::PartyField, Field::PartyField, Field::AnyTerm],
        0x3D => &[Field::PartyField, Field::TermOf(0x19)],
        0x3E => &[Field::PartyField, Field::AnyTerm, Field::TermOf(0x15)],
        0x3F => &[
            Field::PartyField,
            Field::PartyField,
            Field::TermOf(0x15),
            Field::TermOf(0x19),
        ],
        0x40..=0x42 => &[Field::PartyField, Field::AnyTerm, Field::TermOf(0x19)],
        0x43 => &[
            Field::PartyField,
            Field::PartyField,
            Field::IakPairField,
            Field::IakPairField,
            Field::IakPairField,
            Field::IakPairField,
        ],
        0x44 => &[Field::PartyField, Field::RegisterField, Field::HashedPair],
        0x45 => &[Field::PartyField, Field::SignedQuote],
        _ => &[],
    }
}

// The bytes of a field.
#[tactic(auto, unfolding(rules::specs::Record::width))]
pub fn width(f: Field) -> usize
    ensures { result ≡ width_of f }
{
    match f {
        Field::RoleField | Field::AttributesField | Field::PartyField | Field::RegisterField => 1,
        Field::SubjectField => 3,
        Field::IakPairField => rules::PAIR_WIDTH,
        _ => 2,
    }
}

// The bytes of a term's body.
#[tactic(auto, unfolding(rules::specs::Record::body_length, rules::specs::Record::widths, rules::specs::Record::width, rules::specs::Record::fields_of, rules::specs::Record::section_of))]
fn term_length(kind: u8) -> usize
    requires { (0x10 ≤ kind) × (kind ≤ 0x1C) }
    ensures { result ≡ body_length kind }
{
    match kind {
        0x12 | 0x14 | 0x16 => 2,
        0x13 | 0x18 | 0x1A => 4,
        0x15 => 6,
        0x17 | 0x19 => 7,
        0x1B => 1,
        0x1C => 5,
        _ => 3,
    }
}

// The bytes of a command's body.
#[tactic(auto, unfolding(rules::specs::Record::body_length, rules::specs::Record::widths, rules::specs::Record::width, rules::specs::Record::fields_of, rules::specs::Record::section_of))]
fn command_length(kind: u8) -> usize
    requires { (0x30 ≤ kind) × (kind ≤ last_kind) }
    ensures { result ≡ body_length kind }
{
    match kind {
        0x30..=0x37 | 0x3D | 0x45 => 3,
        0x3B | 0x3C | 0x44 => 4,
        0x3F => 6,
        0x43 => 18,
        _ => 5,
    }
}

// The bytes of a kind's body, which the kind byte alone decides.
#[tactic(auto, unfolding(rules::specs::Record::body_length, rules::specs::Record::widths, rules::specs::Record::width, rules::specs::Record::fields_of, rules::specs::Record::section_of))]
fn length_of(kind: u8) -> usize
    ensures { result ≡ body_length kind }
{
    match kind {
        0x01 => 1,
        0x10..=0x1C => term_length(kind),
        0x20..=0x22 => 3,
        0x30..=0x45 => command_length(kind),
        _ => 0,
    }
}

// The same, of the most frequent commands by a branch each: a table would have to be waited for.
#[tactic(auto, unfolding(rules::specs::Record::body_length, rules::specs::Record::widths, rules::specs::Record::width, rules::specs::Record::fields_of, rules::specs::Record::section_of))]
pub fn body_length(kind: u8) -> usize
    ensures { result ≡ body_length kind }
{
    if kind >= 0x30 {
        if kind <= 0x37 {
            return 3;
        }
        if kind == 0x3C {
            return 4;
        }
        if kind >= 0x40 && kind <= 0x42 {
            return 5;
        }
    }
    length_of(kind)
}

// The first four fields of a term, 0 where it has fewer.
pub type Words = [u16; 4];

// Four words as one number, the first the lowest.
#[tactic(auto, unfolding(crate::specs::Keys::key_of))]
pub fn key(words: Words) -> u64
    ensures { result ≡ key_of words }
{
    let [first, second, third, fourth] = words;
    let high = third as u64 + 65536 * fourth as u64;
    first as u64 + 65536 * (second as u64 + 65536 * high)
}

// The byte that tells a TPM from a device, of the subject at a place of a body.
#[tactic(auto, unfolding(rules::specs::Term::subject_fields, rules::specs::Load::subject_at))]
fn tag_at(body: &[u8], i: usize) -> u16
    requires { i < length body.now }
    ensures { result ≡ get_or (subject_fields (subject_at body.now i) []) 0 0 }
{
    if body[i] == 0 { 0 } else { 1 }
}

// The words of the term of a kind with a body, read where its fields stand.
#[tactic(auto, unfolding(rules::specs::Load::term_at, rules::specs::Term::fields_in, rules::specs::Record::body_length, rules::specs::Record::widths, rules::specs::Record::width, rules::specs::Record::fields_of, rules::specs::Record::section_of))]
pub fn words_in(kind: u8, body: &[u8]) -> Words
    requires { (section_of kind ≡ term_section) × (body_length kind ≤ length body.now) }
    ensures { result ≡ words_of (fields_in (term_at kind body.now)) }
{
    match kind {
        0x10 | 0x11 => [word_at(body, 0), body[2] as u16, 0, 0],
        0x12 | 0x14 | 0x16 => [word_at(body, 0), 0, 0, 0],
        0x13 | 0x18 | 0x1A => [word_at(body, 0), word_at(body, 2), 0, 0],
        0x15 => [word_at(body, 0), word_at(body, 2), word_at(body, 4), 0],
        0x17 => [
            tag_at(body, 0),
            word_at(body, 1),
            word_at(body, 3),
            word_at(body, 5),
        ],
        0x19 => [
            word_at(body, 0),
            tag_at(body, 2),
            word_at(body, 3),
            word_at(body, 5),
        ],
        0x1B => [body[0] as u16, 0, 0, 0],
        _ => [body[0] as u16, word_at(body, 1), word_at(body, 3), 0],
    }
}

// Whether attributes have one of the four.
#[tactic(auto, unfolding(rules::specs::Attributes::has))]
pub fn has(a: Attributes, flag: u8) -> bool
    requires { 0 < flag }
    ensures { result ≡ hasFlag a flag }
{
    a.bits / flag % 2 == 1
}
