// UTF-8: one character at a place, and the longest beginning of a text that is UTF-8.

ghost use Rattle.std.specs.Prelude.{◌≡◌, ◌<◌, length, drop, get_or};
ghost use Rattle.text_characters.specs.Utf8.{Utf8};
ghost use Rattle.text_characters.specs.Chars.{char_of, Decoded};
ghost use Rattle.text_characters.specs.mirror.Decoding.{is_tail, is_scalar, kept, two, three, four, decoded, Paired};
ghost use Rattle.text.specs.Lists.{LongestBeginning};

use text::span::{BEYOND, ascii_end};

// A byte that goes on holds six bits of a character, the first of two, three or four bytes five, four or three: how many numbers these
// bits write, and the weight of what stands before one, two or three bytes that go on.
const TAIL: u8 = 1 << 6;

const FIRST_OF_TWO: u8 = 1 << 5;

const FIRST_OF_THREE: u8 = 1 << 4;

const FIRST_OF_FOUR: u8 = 1 << 3;

const ONE_TAIL: u32 = 1 << 6;

const TWO_TAILS: u32 = 1 << 12;

const THREE_TAILS: u32 = 1 << 18;

// How many bytes the longer sequences have, and the place of the last of four.
const OF_THREE: usize = 3;

const OF_FOUR: usize = 4;

const FOURTH: usize = OF_FOUR - 1;

// A character of a text: how many bytes spell it and its code point, or 0 and 0 where none begins.
#[derive(Clone, Copy)]
pub struct Char {
    pub len: usize,
    pub code: u32,
}

pub(crate) fn char_of(len: usize, code: u32) -> Char
    ensures { result ≡ char_of len code }
{
    Char { len, code }
}

pub(crate) fn wide(x: u8) -> u32
    ensures { result ≡ x }
{
    x as u32
}

// A byte that goes on with a sequence.
fn is_tail(b: u8) -> bool
    ensures { result ≡ is_tail b }
{
    match b {
        0x80..=0xBF => true,
        _ => false,
    }
}

fn is_scalar(c: u32) -> bool
    ensures { result ≡ is_scalar c }
{
    match c {
        0..=0xD7FF => true,
        0xE000..=0x10FFFF => true,
        _ => false,
    }
}

// The byte k places after `at`, 0 past the end: 0 is no tail, so it ends a sequence as the end does.
fn byte(s: &[u8], at: usize, k: usize) -> u8
    ensures { result ≡ get_or (drop at s.now) k 0 }
{
    if s.len() <= at {
        return 0;
    }
    if s.len() - at <= k {
        return 0;
    }
    s[at + k]
}

// n bytes spell c, unless c has a shorter form (it is below `low`) or is no scalar value.
fn keep(n: usize, low: u32, c: u32) -> Char
    ensures { result ≡ kept n low c }
{
    if c < low {
        return char_of(0, 0);
    }
    if !is_scalar(c) {
        return char_of(0, 0);
    }
    char_of(n, c)
}

fn decode_two(x: u8, y: u8) -> Char
    ensures { result ≡ two x y }
{
    if !is_tail(y) {
        return char_of(0, 0);
    }
    keep(2, 0x80, wide(x % FIRST_OF_TWO) * ONE_TAIL + wide(y % TAIL))
}

fn decode_three(x: u8, y: u8, z: u8) -> Char
    ensures { result ≡ three x y z }
{
    if !is_tail(y) {
        return char_of(0, 0);
    }
    if !is_tail(z) {
        return char_of(0, 0);
    }
    keep(
        OF_THREE,
        0x800,
        wide(x % FIRST_OF_THREE) * TWO_TAILS + wide(y % TAIL) * ONE_TAIL + wide(z % TAIL),
    )
}

fn decode_four(x: u8, y: u8, z: u8, w: u8) -> Char
    ensures { result ≡ four x y z w }
{
    if !is_tail(y) {
        return char_of(0, 0);
    }
    if !is_tail(z) {
        return char_of(0, 0);
    }
    if !is_tail(w) {
        return char_of(0, 0);
    }
    keep(
        OF_FOUR,
        0x10000,
        wide(x % FIRST_OF_FOUR) * THREE_TAILS
            + wide(y % TAIL) * TWO_TAILS
            + wide(z % TAIL) * ONE_TAIL
            + wide(w % TAIL),
    )
}

// The character that begins at a place.
pub fn decode(s: &[u8], at: usize) -> Char
    ensures { Decoded (drop at s.now) result }
{
    if s.len() <= at {
        return char_of(0, 0);
    }
    let x = s[at];
    if x < BEYOND {
        return char_of(1, wide(x));
    }
    if x < 0xC0 {
        return char_of(0, 0);
    }
    if x < 0xE0 {
        return decode_two(x, byte(s, at, 1));
    }
    if x < 0xF0 {
        return decode_three(x, byte(s, at, 1), byte(s, at, 2));
    }
    if x < 0xF8 {
        return decode_four(x, byte(s, at, 1), byte(s, at, 2), byte(s, at, FOURTH));
    }
    char_of(0, 0)
}

// Most characters beyond ASCII have two bytes: the code point of one that begins at a place, or 0. A number and no struct, so that it goes
// through no memory.
pub(crate) fn pair(s: &[u8], at: usize) -> u32
    requires { at < length s.now }
    ensures { Paired (drop at s.now) result }
{
    let x = s[at];
    if x < 0xC2 {
        return 0;
    }
    if 0xDF < x {
        return 0;
    }
    let y = byte(s, at, 1);
    if !is_tail(y) {
        return 0;
    }
    wide(x % FIRST_OF_TWO) * ONE_TAIL + wide(y % TAIL)
}

// How many bytes the character has that begins at a place, 0 where none does.
fn char_len(s: &[u8], at: usize) -> usize
    requires { at < length s.now }
    ensures { result ≡ (decoded (drop at s.now)).len }
{
    if pair(s, at) != 0 {
        return 2;
    }
    let c = decode(s, at);
    c.len
}

// The length of the longest beginning that is UTF-8.
pub fn utf8_end(s: &[u8]) -> usize
    ensures { LongestBeginning Utf8 s.now result }
{
    let mut i = ascii_end(s, 0);
    while i < s.len() {
        let n = char_len(s, i);
        if n == 0 {
            return i;
        }
        i = ascii_end(s, i + n);
    }
    i
}
