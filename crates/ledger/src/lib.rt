// The ledger: a lent slice of entries. `append` writes an entry, `read_one` reads one.
#![tactic(auto)]

ghost use Rattle.std.specs.Prelude.{◌≡◌, [], ◌∷◌, ◌++◌, ◌+◌, ◌<◌, ◌≤◌, length, set, get_or};
ghost use Rattle.rules.specs.Limits.{pair_count};
ghost use Rattle.rules.specs.Lent.{no_entry};
ghost use Rattle.ledger.specs.Placed.{cleared, puts};

use rules::Entry;
use std::marker::Model;

// The entries that a command gains: one, one for each pair of a 43, or none. A clause sees their list; each place that
// is not used holds the entry of zeros, so that the list fixes the value.
#[derive(Clone, Copy)]
pub struct Gained {
    count: usize,
    entries: [Entry; rules::PAIR_COUNT],
}

impl Model for Gained {
    ghost use Rattle.std.specs.Prelude.{length, take};
    ghost use Rattle.ledger.specs.Few.{Items, Few, filled, count_back, entries_back};

    ghost Value = { Items };

    ghost view = { λ g. record { items = take g.count g.entries } };

    ghost invariant = { λ g. Few g.count g.entries };

    ghost inverse = { λ v. record { count = length v.items; entries = filled v.items } };

    ghost inverse_ok = { λ g h i. record { count = count_back g.count g.entries h i; entries = entries_back g.count g.entries h i } };
}

impl Gained {
    // No entry.
    pub fn new() -> Gained
        ensures { result.items ≡ [] }
    {
        Gained {
            count: 0,
            entries: [Entry::default(); rules::PAIR_COUNT],
        }
    }

    // How many there are.
    pub fn len(&self) -> usize
        ensures value { result ≡ length self.now.items }
        ensures fits { result ≤ pair_count }
    {
        self.count
    }

    // The entries.
    pub fn as_slice(&self) -> &[Entry]
        ensures value { result.now ≡ self.now.items }
        ensures fits { length result.now ≤ pair_count }
    {
        &self.entries[..self.count]
    }

    // One more. There must be room.
    pub fn push(&mut self, e: Entry)
        requires { length self.old.items < pair_count }
        ensures items { self.new.items ≡ self.old.items ++ e ∷ [] }
        ensures len { length self.new.items ≡ length self.old.items + 1 }
    {
        let at = self.count;
        self.entries[at] = e;
        self.count = at + 1;
    }
}

// An entry is written at a place.
pub fn append(ledger: &mut [Entry], at: usize, e: Entry)
    requires { at < length ledger.old }
    ensures { ledger.new ≡ set ledger.old at e }
{
    ledger[at] = e;
}

// The entry at a place.
pub fn read_one(ledger: &[Entry], at: usize) -> Entry
    requires { at < length ledger.now }
    ensures { result ≡ get_or ledger.now at no_entry }
{
    ledger[at]
}

// The first places are cleared.
#[tactic(auto, using(crate::proofs::Placed::cleared_none, crate::proofs::Placed::cleared_more, crate::proofs::Placed::length_cleared))]
pub fn clear(ledger: &mut [Entry], places: usize)
    requires { places ≤ length ledger.old }
    ensures { ledger.new ≡ cleared ledger.old places }
{
    for at in 0..places {
        append(ledger, at, Entry::default());
    }
}

// The entries that a command gains are written from a place on. The loop goes over all places that they may take: one of
// just their number would become a call of memcpy, which the archive for C would need from outside.
pub fn append_gained(ledger: &mut [Entry], from: usize, gained: &Gained)
    requires { from + length gained.now.items ≤ length ledger.old }
    ensures { ledger.new ≡ puts ledger.old from gained.now.items (length gained.now.items) }
{
    let count = gained.len();
    for i in 0..rules::PAIR_COUNT {
        if i < count {
            append(ledger, from + i, gained.as_slice()[i]);
        }
    }
}
