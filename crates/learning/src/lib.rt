// Learning a term: the party knows it and everything in it.
#![tactic(auto)]

ghost use Rattle.std.specs.Prelude.{◌≡◌, ◌<◌};
ghost use Rattle.rules.specs.Limits.{term_limit};
ghost use Rattle.rules.specs.Term.{attributes_of};
ghost use Rattle.learning.specs.Parts.{listed};
ghost use Rattle.state.specs.View.{view, with_knows};
ghost use Rattle.tables.specs.Columns.{tables_in};
ghost use Rattle.learning.specs.There.{term_there, TermRecord};
ghost use Rattle.learning.specs.Noted.{parts_noted, learn_noted, learn_parts_noted, Ready};

use rules::Attributes;
use tables::Tables;

// The attributes of the key of the record at a place, read where they stand; none of another term.
pub fn attributes_at(file: &[u8], at: usize) -> Attributes
    requires { TermRecord file.now at }
    ensures { result ≡ attributes_of (term_there file.now at) }
{
    let bits = if file[at] <= 0x11 { file[at + 3] } else { 0 };
    Attributes { bits }
}

// The parts of a term.
#[derive(Clone, Copy)]
enum Parts {
    Nothing,
    One(u16),
    Two(u16, u16),
}

// The parts of a term, by its kind and its fields.
#[tactic(auto, unfolding(crate::specs::Noted::parts_noted, crate::specs::Noted::parts_by))]
fn parts_of(tables: &Tables, t: usize) -> Parts
    requires { t < term_limit }
    ensures { listed result ≡ parts_noted (tables_in tables.now).terms t }
{
    match tables.kind_of(t) {
        0x13 | 0x14 | 0x19 => Parts::One(tables.field_of(t, 0)),
        0x17 => Parts::Two(tables.field_of(t, 2), tables.field_of(t, 3)),
        0x18 | 0x1A => Parts::Two(tables.field_of(t, 0), tables.field_of(t, 1)),
        0x1C => Parts::Two(tables.field_of(t, 1), tables.field_of(t, 2)),
        _ => Parts::Nothing,
    }
}

// The party learns term t and everything in it. A term already known needs no second opening.
#[cycle(learn_parts_learn_term)]
pub fn learn_term(tables: &Tables, state: &mut [u8], party: usize, t: usize)
    requires { Ready (tables_in tables.now).terms state.old party t }
    ensures { view state.new ≡ with_knows (view state.old) (learn_noted (tables_in tables.now).terms party t (view state.old).knows) }
{
    if !state::knows(state, party, t) {
        state::note_known(state, party, t);
        learn_parts(tables, state, party, t);
    }
}

// The party learns each part of term t that it does not know.
#[cycle(learn_parts_learn_term)]
pub fn learn_parts(tables: &Tables, state: &mut [u8], party: usize, t: usize)
    requires { Ready (tables_in tables.now).terms state.old party t }
    ensures { view state.new ≡ with_knows (view state.old) (learn_parts_noted (tables_in tables.now).terms party t (view state.old).knows) }
{
    match parts_of(tables, t) {
        Parts::Nothing => {}
        Parts::One(part) => {
            if !state::knows(state, party, part as usize) {
                learn_term(tables, state, party, part as usize);
            }
        }
        Parts::Two(first, second) => {
            if !state::knows(state, party, first as usize) {
                learn_term(tables, state, party, first as usize);
            }
            if !state::knows(state, party, second as usize) {
                learn_term(tables, state, party, second as usize);
            }
        }
    }
}
