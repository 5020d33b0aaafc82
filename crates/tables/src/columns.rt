// The columns of the tables, and what reads and notes them.

ghost use Rattle.std.specs.Prelude.{◌≡◌, ◌<◌, IfSome};
ghost use Rattle.rules.specs.Limits.{party_limit, term_limit};
ghost use Rattle.rules.specs.State.{put};
ghost use Rattle.tables.specs.Columns.{field_words, serial_buckets, one_more, EmptyTables, tables_in, field_of, with_signer, with_half, with_entry, with_depth, with_terms, with_boards, with_kind, with_field, with_ek, linked};

// The fields of a term at most.
pub const FIELDS: usize = 4;

// Serial numbers with the same low ten bits share a bucket.
pub const BUCKETS: usize = 1024;

// Each party's signing key. The private half of each public key, and the place and the depth of each certificate's
// entry in the ledger. The kind of each term and its fields. The ledger's entries by their Subject's serial number:
// of each bucket, the entry that was linked last; of each place of the ledger, the serial number that its entry is
// linked by, the entry that was linked before it in its bucket, and the EK at the end of its path. Keys, halves and
// entries are one more than their number, 0 where there is none.
#[derive(Drop)]
pub struct Tables {
    // First, so that learning, which goes deep, needs no register for where they begin.
    fields: [u16; FIELDS * rules::TERM_LIMIT],
    signers: [u16; rules::PARTY_LIMIT],
    halves: [u16; rules::TERM_LIMIT],
    entries: [u16; rules::TERM_LIMIT],
    depths: [u16; rules::TERM_LIMIT],
    kinds: [u16; rules::TERM_LIMIT],
    newest: [u16; BUCKETS],
    serials: [u16; rules::TERM_LIMIT],
    earlier: [u16; rules::TERM_LIMIT],
    eks: [u16; rules::TERM_LIMIT],
}

// One more than a number, 0 for none.
fn one_more(n: Option<usize>) -> u16
    requires { IfSome n (λ i. i < 65535) }
    ensures { result ≡ one_more n }
{
    match n {
        Some(i) => (i + 1) as u16,
        None => 0,
    }
}

impl Tables {
    // Tables with nothing in them.
    pub fn new() -> Tables
        ensures { EmptyTables result }
    {
        Tables {
            fields: [0; FIELDS * rules::TERM_LIMIT],
            signers: [0; rules::PARTY_LIMIT],
            halves: [0; rules::TERM_LIMIT],
            entries: [0; rules::TERM_LIMIT],
            depths: [0; rules::TERM_LIMIT],
            kinds: [0; rules::TERM_LIMIT],
            newest: [0; BUCKETS],
            serials: [0; rules::TERM_LIMIT],
            earlier: [0; rules::TERM_LIMIT],
            eks: [0; rules::TERM_LIMIT],
        }
    }

    // The signing key of a party.
    pub fn signer_of(&self, party: usize) -> Option<usize>
        requires { party < party_limit }
        ensures { one_more result ≡ (tables_in self.now).signer party }
    {
        self.signers[party].checked_sub(1).map(|n| n as usize)
    }

    // The private half of a public key.
    pub fn half_of(&self, t: usize) -> Option<usize>
        requires { t < term_limit }
        ensures { one_more result ≡ (tables_in self.now).half t }
    {
        self.halves[t].checked_sub(1).map(|n| n as usize)
    }

    // The place of a certificate's entry in the ledger.
    pub fn entry_of(&self, t: usize) -> Option<usize>
        requires { t < term_limit }
        ensures { one_more result ≡ (tables_in self.now).entry t }
    {
        self.entries[t].checked_sub(1).map(|n| n as usize)
    }

    // The depth of a certificate's entry, 0 where there is none.
    pub fn depth_of(&self, t: usize) -> u16
        requires { t < term_limit }
        ensures { result ≡ (tables_in self.now).depth t }
    {
        self.depths[t]
    }

    // The kind of a term.
    pub fn kind_of(&self, t: usize) -> u16
        requires { t < term_limit }
        ensures { result ≡ (tables_in self.now).terms.kind t }
    {
        self.kinds[t]
    }

    // A field of a term.
    pub fn field_of(&self, t: usize, i: usize) -> u16
        requires { (t < term_limit) × (i < field_words) }
        ensures { result ≡ field_of (tables_in self.now).terms t i }
    {
        self.fields[FIELDS * t + i]
    }

    // The place of the entry that was linked last in a bucket.
    pub fn newest_of(&self, bucket: usize) -> Option<usize>
        requires { bucket < serial_buckets }
        ensures { one_more result ≡ (tables_in self.now).boards.newest bucket }
    {
        self.newest[bucket].checked_sub(1).map(|n| n as usize)
    }

    // The serial number that the entry at a place is linked by.
    pub fn serial_of(&self, place: usize) -> u16
        requires { place < term_limit }
        ensures { result ≡ (tables_in self.now).boards.serial place }
    {
        self.serials[place]
    }

    // The place of the entry that was linked before it in its bucket.
    pub fn earlier_of(&self, place: usize) -> Option<usize>
        requires { place < term_limit }
        ensures { one_more result ≡ (tables_in self.now).boards.earlier place }
    {
        self.earlier[place].checked_sub(1).map(|n| n as usize)
    }

    // The EK at the end of the path of the entry at a place.
    pub fn ek_of(&self, place: usize) -> u16
        requires { place < term_limit }
        ensures { result ≡ (tables_in self.now).boards.ek place }
    {
        self.eks[place]
    }

    // A party's signing key is noted, or that there is none.
    #[tactic(auto, using(crate::proofs::Stores::column_put))]
    pub fn note_signer(&mut self, party: usize, key: Option<usize>)
        requires { (party < party_limit) × IfSome key (λ n. n < 65535) }
        ensures { tables_in self.new ≡ with_signer (tables_in self.old) (put (tables_in self.old).signer party (one_more key)) }
    {
        self.signers[party] = one_more(key);
    }

    // A public key's private half is noted, or that there is none.
    #[tactic(auto, using(crate::proofs::Stores::column_put))]
    pub fn note_half(&mut self, t: usize, half: Option<usize>)
        requires { (t < term_limit) × IfSome half (λ n. n < 65535) }
        ensures { tables_in self.new ≡ with_half (tables_in self.old) (put (tables_in self.old).half t (one_more half)) }
    {
        self.halves[t] = one_more(half);
    }

    // The place of a certificate's entry is noted, or that there is none.
    #[tactic(auto, using(crate::proofs::Stores::column_put))]
    pub fn note_entry(&mut self, t: usize, place: Option<usize>)
        requires { (t < term_limit) × IfSome place (λ n. n < 65535) }
        ensures { tables_in self.new ≡ with_entry (tables_in self.old) (put (tables_in self.old).entry t (one_more place)) }
    {
        self.entries[t] = one_more(place);
    }

    // The depth of a certificate's entry is noted.
    #[tactic(auto, using(crate::proofs::Stores::column_put))]
    pub fn note_depth(&mut self, t: usize, depth: u16)
        requires { t < term_limit }
        ensures { tables_in self.new ≡ with_depth (tables_in self.old) (put (tables_in self.old).depth t depth) }
    {
        self.depths[t] = depth;
    }

    // A term's kind is noted.
    #[tactic(auto, using(crate::proofs::Stores::column_put))]
    pub fn note_kind(&mut self, t: usize, kind: u16)
        requires { t < term_limit }
        ensures { tables_in self.new ≡ with_terms (tables_in self.old) (with_kind (tables_in self.old).terms t kind) }
    {
        self.kinds[t] = kind;
    }

    // A term's field is noted.
    #[tactic(auto, using(crate::proofs::Stores::column_put))]
    pub fn note_field(&mut self, t: usize, i: usize, word: u16)
        requires { (t < term_limit) × (i < field_words) }
        ensures { tables_in self.new ≡ with_terms (tables_in self.old) (with_field (tables_in self.old).terms t i word) }
    {
        self.fields[FIELDS * t + i] = word;
    }

    // The EK at the end of the path of the entry at a place is noted.
    #[tactic(auto, using(crate::proofs::Stores::column_put))]
    pub fn note_ek(&mut self, place: usize, ek: u16)
        requires { place < term_limit }
        ensures { tables_in self.new ≡ with_boards (tables_in self.old) (with_ek (tables_in self.old).boards (put (tables_in self.old).boards.ek place ek)) }
    {
        self.eks[place] = ek;
    }

    // The entry at a place is linked by a serial number, before those of its bucket.
    #[tactic(auto, using(crate::proofs::Stores::column_put))]
    pub fn link(&mut self, place: usize, serial: u16)
        requires { place < term_limit }
        ensures { tables_in self.new ≡ with_boards (tables_in self.old) (linked (tables_in self.old).boards place serial) }
    {
        let bucket = serial as usize % BUCKETS;
        self.serials[place] = serial;
        self.earlier[place] = self.newest[bucket];
        self.newest[bucket] = (place + 1) as u16;
    }
}
