// The decimal digits of a number, without dividing.
#![tactic(auto)]

ghost use Rattle.std.specs.Prelude.{◌≡◌, [], ◌∷◌, ◌+◌, ◌*◌, ◌^◌, ◌<◌, length};
ghost use Rattle.rules.specs.Listing.{decimal};
ghost use Rattle.theorems.specs.Decimal.{digit_limit};
ghost use Rattle.decimal.specs.Text.{Room, Written, TakenAway};

// Digits of a number of 64 bits at most.
pub const DIGITS: usize = 20;

// Text goes into a lent buffer from a place on, and the next place is answered: no heap, and the listing's buffer is
// lent.

// One byte.
pub fn byte_into(out: &mut [u8], at: usize, b: u8) -> usize
    requires { at < length out.old }
    ensures { Written out.old at (b ∷ []) out.new result }
{
    out[at] = b;
    at + 1
}

// The powers of ten, from 10 ^ 0 on.
static POWERS: [u64; DIGITS] = [
    1,
    10,
    100,
    1_000,
    10_000,
    100_000,
    1_000_000,
    10_000_000,
    100_000_000,
    1_000_000_000,
    10_000_000_000,
    100_000_000_000,
    1_000_000_000_000,
    10_000_000_000_000,
    100_000_000_000_000,
    1_000_000_000_000_000,
    10_000_000_000_000_000,
    100_000_000_000_000_000,
    1_000_000_000_000_000_000,
    10_000_000_000_000_000_000,
];

// A power of ten, from the first to the 19th.
#[tactic(auto, using(crate::proofs::Powers::power_is))]
fn power_of_ten(k: usize) -> u64
    requires { (0 < k) × (k < digit_limit) }
    ensures { result ≡ 10 ^ k }
{
    POWERS[k]
}

// How many digits a number has.
fn digit_count(x: u64) -> usize
    ensures { result ≡ length (decimal x) }
{
    for n in 1..DIGITS {
        if x < power_of_ten(n) {
            return n;
        }
    }
    DIGITS
}

// How often a power was taken away, and what is left.
#[derive(Clone, Copy)]
struct Taken {
    times: u8,
    left: u64,
}

// Takes a power away as often as it can be: request 2 of document 02 wants no division.
fn take_away(x: u64, power: u64) -> Taken
    requires { x < 10 * power }
    ensures { TakenAway x power result.times result.left }
{
    let mut left = x;
    let mut times = 0;
    while left >= power {
        left -= power;
        times += 1;
    }
    Taken { times, left }
}

// The decimal digits of a number. What is left when the tens are taken away is the last of them.
pub fn decimal_into(out: &mut [u8], at: usize, x: u64) -> usize
    requires { Room out.old at (decimal x) }
    ensures { Written out.old at (decimal x) out.new result }
{
    let mut left = x;
    let mut next = at;
    for n in (1..digit_count(x)).rev() {
        let taken = take_away(left, power_of_ten(n));
        left = taken.left;
        next = byte_into(out, next, b'0' + taken.times);
    }
    byte_into(out, next, b'0' + left as u8)
}
