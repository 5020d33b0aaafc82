// The state in lent bytes: readers and writers of its columns.
#![tactic(auto)]

ghost use Rattle.std.specs.Prelude.{◌≡◌, ℕ, eqb, ◌+◌, ◌*◌, ◌^◌, ◌<◌, ◌≤◌, length, get_or, replicate};
ghost use Rattle.rules.specs.Limits.{row_width, party_limit};
ghost use Rattle.rules.specs.Record.{word};
ghost use Rattle.rules.specs.Learning.{grant};
ghost use Rattle.rules.specs.State.{put};
ghost use Rattle.rules.specs.Desk.{knowers};
ghost use Rattle.state.specs.View.{bit, view, with_knows, with_table, with_mark, with_desk, with_request, with_place, in_other, word_put};

// Bytes of a term, and where each column stands among them.
pub const ROW: usize = rules::ROW_WIDTH;

pub const KNOWN: usize = 0;

pub const TABLE: usize = 1;

pub const MARK: usize = 2;

pub const DESK: usize = 3;

pub const REQUEST: usize = 4;

pub const PLACE: usize = 6;

// Two to the p.
#[tactic(auto, using(crate::proofs::Bits::shifted))]
pub fn power(p: usize) -> u8
    requires { p < party_limit }
    ensures { result ≡ 2 ^ p }
{
    1u8 << p
}

// Whether a byte has a party's bit.
#[tactic(auto, unfolding(crate::specs::View::bit))]
fn has_bit(byte: u8, party: usize) -> bool
    requires { party < party_limit }
    ensures { result ≡ eqb (bit byte party) 1 }
{
    (byte >> party) % 2 == 1
}

// The readers and writers of columns below differ in a column and its width alone; each has a name and a promise of its
// own, and one by a column's number would be no plainer. The columns are bytes of a lent buffer: the C interface.

// Whether a party knows a term.
pub fn knows(state: &[u8], party: usize, t: usize) -> bool
    requires { (party < party_limit) × (row_width * t + row_width ≤ length state.now) }
    ensures { result ≡ (view state.now).knows party t }
{
    has_bit(state[ROW * t + KNOWN], party)
}

// Whether a party's TPM table has a term; of a private key, whether its TPM holds it.
pub fn in_table(state: &[u8], party: usize, t: usize) -> bool
    requires { (party < party_limit) × (row_width * t + row_width ≤ length state.now) }
    ensures { result ≡ (view state.now).table party t }
{
    has_bit(state[ROW * t + TABLE], party)
}

// Whether the TPM table of another party than this has a term.
pub fn in_other_table(state: &[u8], party: usize, t: usize) -> bool
    requires { (party < party_limit) × (row_width * t + row_width ≤ length state.now) }
    ensures { result ≡ in_other (view state.now).table party t party_limit }
{
    let own = power(party);
    state[ROW * t + TABLE] | own != own
}

// How many parties know a term.
pub fn knowers_of(state: &[u8], t: usize) -> u32
    requires { row_width * t + row_width ≤ length state.now }
    ensures { result ≡ knowers (view state.now).knows t party_limit }
{
    state[ROW * t + KNOWN].count_ones()
}

// The mark of a number or a credential.
pub fn mark_of(state: &[u8], t: usize) -> u8
    requires { row_width * t + row_width ≤ length state.now }
    ensures { result ≡ (view state.now).mark t }
{
    state[ROW * t + MARK]
}

// The desk that opened a credential.
pub fn desk_of(state: &[u8], t: usize) -> u8
    requires { row_width * t + row_width ≤ length state.now }
    ensures { result ≡ (view state.now).desk t }
{
    state[ROW * t + DESK]
}

// The request that a credential was opened with.
pub fn request_of(state: &[u8], t: usize) -> usize
    requires { row_width * t + row_width ≤ length state.now }
    ensures { result ≡ (view state.now).request t }
{
    records::word_at(state, ROW * t + REQUEST) as usize
}

// The place of a term's record.
pub fn place_of(state: &[u8], t: usize) -> usize
    requires { row_width * t + row_width ≤ length state.now }
    ensures { result ≡ (view state.now).place t }
{
    records::word_at(state, ROW * t + PLACE) as usize
}

// The party comes to know the term itself.
#[tactic(auto, using(crate::proofs::Bytes::view_known))]
pub fn note_known(state: &mut [u8], party: usize, t: usize)
    requires { (party < party_limit) × (row_width * t + row_width ≤ length state.old) }
    ensures { view state.new ≡ with_knows (view state.old) (grant (view state.old).knows party t) }
{
    state[ROW * t + KNOWN] |= power(party);
}

// The term enters the party's TPM table.
#[tactic(auto, using(crate::proofs::Bytes::view_table))]
pub fn note_table(state: &mut [u8], party: usize, t: usize)
    requires { (party < party_limit) × (row_width * t + row_width ≤ length state.old) }
    ensures { view state.new ≡ with_table (view state.old) (grant (view state.old).table party t) }
{
    state[ROW * t + TABLE] |= power(party);
}

// The number or the credential gets a mark.
#[tactic(auto, using(crate::proofs::Bytes::view_mark))]
pub fn note_mark(state: &mut [u8], t: usize, mark: u8)
    requires { row_width * t + row_width ≤ length state.old }
    ensures { view state.new ≡ with_mark (view state.old) (put (view state.old).mark t mark) }
{
    state[ROW * t + MARK] = mark;
}

// The desk that opens the credential is noted.
#[tactic(auto, using(crate::proofs::Bytes::view_desk))]
pub fn note_desk(state: &mut [u8], t: usize, desk: u8)
    requires { row_width * t + row_width ≤ length state.old }
    ensures { view state.new ≡ with_desk (view state.old) (put (view state.old).desk t desk) }
{
    state[ROW * t + DESK] = desk;
}

// A number in two bytes, high byte first: two lines, which registers::show has too.
fn note_word(state: &mut [u8], at: usize, x: usize)
    requires { (x < 65536) × (at + 1 < length state.old) }
    ensures { state.new ≡ word_put state.old at x }
{
    state[at] = (x / 256 % 256) as u8;
    state[at + 1] = (x % 256) as u8;
}

// The request that the credential is opened with is noted.
#[tactic(auto, using(crate::proofs::Bytes::view_request))]
pub fn note_request(state: &mut [u8], t: usize, request: usize)
    requires { (request < 65536) × (row_width * t + row_width ≤ length state.old) }
    ensures { view state.new ≡ with_request (view state.old) (put (view state.old).request t request) }
{
    note_word(state, ROW * t + REQUEST, request);
}

// The place of the term's record is noted.
#[tactic(auto, using(crate::proofs::Bytes::view_place))]
pub fn note_place(state: &mut [u8], t: usize, place: usize)
    requires { (place < 65536) × (row_width * t + row_width ≤ length state.old) }
    ensures { view state.new ≡ with_place (view state.old) (put (view state.old).place t place) }
{
    note_word(state, ROW * t + PLACE, place);
}

// All bytes zero.
pub fn clear(state: &mut [u8])
    ensures { state.new ≡ replicate (length state.old) 0 }
{
    state.fill(0);
}
