// The terms by their keys, filled as they are entered: refusal 9 and the halves of a key pair by a walk down one
// bucket.
#![tactic(auto)]

ghost use Rattle.std.specs.Prelude.{◌≡◌, cond, not, ◌+◌, ◌<◌, ◌≤◌, eqb, length};
ghost use Rattle.rules.specs.Codes.{number_in};
ghost use Rattle.rules.specs.Limits.{term_limit};
ghost use Rattle.rules.specs.Load.{refuse_unless, term_at};
ghost use Rattle.rules.specs.State.{put};
ghost use Rattle.state.specs.View.{view, with_place};
ghost use Rattle.tables.specs.Columns.{tables_in, with_terms};
ghost use Rattle.checks.specs.There.{any_alike_there};
ghost use Rattle.index.specs.Indexed.{words_noted, key_noted, term_noted, other_half, Indexed, Reached, SearchResult, EntersTerm};

use records::Words;
use rules::Refusal;
use tables::Tables;

pub const BUCKETS: usize = 1024;

// The largest prime below it.
pub const PRIME: u64 = 1021;

// Links are an array of indices: no heap.
pub const LINKS: usize = BUCKETS + 2 * rules::TERM_LIMIT;

// Where a new term enters: the free entry at the end of its key's way; and the other half of its key pair, where it was
// met.
#[derive(Clone, Copy)]
pub struct Vacancy {
    pub at: usize,
    pub half: Option<usize>,
}

// The kind of a key's other half.
#[tactic(auto, unfolding(crate::specs::Indexed::other_half))]
fn other_half(kind: u8) -> Option<u16>
    ensures { result ≡ other_half kind }
{
    match kind {
        0x10 => Some(0x11),
        0x11 => Some(0x10),
        _ => None,
    }
}

// The words that are noted of a term.
pub fn words_of(tables: &Tables, t: usize) -> Words
    requires { t < term_limit }
    ensures { result ≡ words_noted (tables_in tables.now).terms t }
{
    [
        tables.field_of(t, 0),
        tables.field_of(t, 1),
        tables.field_of(t, 2),
        tables.field_of(t, 3),
    ]
}

// The key of a term, by its words.
#[tactic(auto, unfolding(crate::specs::Indexed::key_noted))]
fn key_of(tables: &Tables, t: usize) -> u64
    requires { t < term_limit }
    ensures { result ≡ key_noted (tables_in tables.now).terms t }
{
    records::key(words_of(tables, t))
}

// The kind of a term and its words.
fn note_term(tables: &mut Tables, t: usize, kind: u8, words: Words)
    requires { t < term_limit }
    ensures { tables_in tables.new ≡ with_terms (tables_in tables.old) (term_noted (tables_in tables.old).terms t kind words) }
{
    let [first, second, third, fourth] = words;
    tables.note_kind(t, kind as u16);
    tables.note_field(t, 0, first);
    tables.note_field(t, 1, second);
    tables.note_field(t, 2, third);
    tables.note_field(t, 3, fourth);
}

// The way of a key down its bucket: 9 where a term of the kind has it.
fn search(
    links: &[u16; LINKS],
    tables: &Tables,
    kind: u8,
    key: u64,
    terms: usize,
) -> Result<Vacancy, Refusal>
    requires { Reached (key_noted (tables_in tables.now).terms) links.now terms }
    ensures { SearchResult (tables_in tables.now).terms.kind (key_noted (tables_in tables.now).terms) links.now kind key terms result }
{
    let other = other_half(kind);
    let mut slot = (key % PRIME) as usize;
    let mut rest = key;
    let mut half = None;
    while let Some(t) = (links[slot] as usize).checked_sub(1) {
        if key_of(tables, t) == key {
            let there = tables.kind_of(t);
            if there == kind as u16 {
                return Err(Refusal::TermAlike);
            }
            if other == Some(there) {
                half = Some(t);
            }
        }
        slot = BUCKETS + 2 * t + (rest % 2) as usize;
        rest /= 2;
    }
    Ok(Vacancy { at: slot, half })
}

// A term record: 9 where its term is alike an earlier one; else its place is noted, and its term enters the index.
pub fn enter_term(
    file: &[u8],
    state: &mut [u8],
    links: &mut [u16; LINKS],
    tables: &mut Tables,
    body: &[u8],
    kind: u8,
    at: usize,
    terms: usize,
) -> Result<(), Refusal>
    requires { EntersTerm file.now state.old links.old tables.old body.now kind at terms }
    ensures refusal { number_in result ≡ refuse_unless 9 (not (any_alike_there file.now (view state.old).place (term_at kind body.now) terms)) }
    ensures left { view state.new ≡ cond (eqb (number_in result) 0) (with_place (view state.old) (put (view state.old).place terms at)) (view state.old) }
    ensures keys { (tables_in tables.new).signer ≡ (tables_in tables.old).signer }
    ensures indexed { number_in result ≡ 0 → Indexed file.now (view state.new).place links.new tables.new (terms + 1) }
{
    let words = records::words_in(kind, body);
    let vacancy = search(links, tables, kind, records::key(words), terms)?;
    state::note_place(state, terms, at);
    note_term(tables, terms, kind, words);
    links[vacancy.at] = (terms + 1) as u16;
    if let Some(half) = vacancy.half {
        if kind == 0x10 {
            tables.note_half(terms, Some(half));
        } else {
            tables.note_half(half, Some(terms));
        }
    }
    Ok(())
}
