// How far a class reaches from a place. A place past the end is its own answer.

ghost use Rattle.std.specs.Prelude.{◌≡◌, ◌+◌, ◌≤◌, drop, length, ℕ, Bool};
ghost use Rattle.text.specs.Lists.{span};
ghost use Rattle.text.specs.Bytes.{is_ascii, is_blank};
ghost use Rattle.text.specs.Little.{Loaded};
ghost use Rattle.text.specs.mirror.Zeros.{zero_bytes, Tells};

use crate::class::is_blank;
use crate::run::run_end;
use crate::width::WIDTH_64;

// Other runs are passed four bytes a turn, by those who use these: so many, and those of them after the first.
pub const TURN: usize = 4;

pub const TURN_REST: usize = TURN - 1;

// How many bits a byte has.
const BITS: u32 = 8;

// Eight spaces, loaded.
const SPACES: u64 = 0x2020202020202020;

// The first byte that is no ASCII.
pub const BEYOND: u8 = 0x80;

// The top bit of each of eight bytes, which no ASCII has.
const MARKS: u64 = 0x8080808080808080;

// How many bytes of a number are 0, from its first on.
fn zeros(d: u64) -> usize
    ensures { result ≡ zero_bytes d }
{
    (u64::trailing_zeros(d) / BITS) as usize
}

// Eight neighbours as one number, the first the least.
fn load8(s: &[u8], at: usize) -> u64
    requires { at + 8 ≤ length s.now }
    ensures { Loaded 8 s.now at result }
{
    match s[at..at + WIDTH_64].first_chunk() {
        Some(eight) => u64::from_le_bytes(*eight),
        None => 0,
    }
}

// The end of a class's bytes from a place on, eight a turn: of the number that `others` makes of eight bytes, the zeros at its end say how
// many of them are of the class. It may stop early near the end of the bytes: what is left of the class is the same.
fn eights_end<F: Fn(u64) -> u64>(s: &[u8], at: usize, others: F) -> usize
    requires { F.IsAlwaysCallable others }
    ensures { (p : ℕ → Bool) → ((i n d : ℕ) → i + 8 ≤ length s.now → Loaded 8 s.now i n → F.post others n d → Tells p s.now i d) → result + span p (drop result s.now) ≡ at + span p (drop at s.now) }
{
    if s.len() < WIDTH_64 {
        return at;
    }
    // Kept: an index, as over `as_chunks` a call took 22 instructions more, where most take some 50.
    let last = s.len() - WIDTH_64 + 1;
    let mut i = at;
    while i < last {
        let d = others(load8(s, i));
        if d != 0 {
            return i + zeros(d);
        }
        i += WIDTH_64;
    }
    i
}

// Over a line feed, where one stands there.
fn line_end(s: &[u8], at: usize) -> usize
    ensures { result + span is_blank (drop result s.now) ≡ at + span is_blank (drop at s.now) }
{
    if at < s.len() {
        if s[at] == b'\n' {
            return at + 1;
        }
    }
    at
}

// Most places have nothing to pass, which one test tells; else it is mostly indentation, a line feed and then spaces.
pub fn blanks_end(s: &[u8], at: usize) -> usize
    ensures { result ≡ at + span is_blank (drop at s.now) }
{
    if s.len() <= at {
        return at;
    }
    if b' ' < s[at] {
        return at;
    }
    // Eight spaces are no more than themselves.
    let i = eights_end(s, line_end(s, at), |d| d.wrapping_sub(SPACES));
    run_end(s, i, is_blank)
}

// Eight bytes of ASCII have no top bit.
pub fn ascii_end(s: &[u8], at: usize) -> usize
    ensures { result ≡ at + span is_ascii (drop at s.now) }
{
    let i = eights_end(s, at, |d| d & MARKS);
    run_end(s, i, |b| b < BEYOND)
}
