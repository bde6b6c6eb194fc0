// The bytes of a text, `&`, `<` and `>` by entities: what stands between two of them is copied as it stands.

ghost use Rattle.std.specs.Prelude.{◌≡◌, true, ◌+◌, ◌-◌, ◌≤◌, drop, length, take, leb};
ghost use Rattle.value.specs.script.Raw.{is_plain, escape, escaped, is_marked};
ghost use Rattle.std.proofs.Math.Seq.{slice};
ghost use Rattle.text.specs.Lists.{span};
ghost use Rattle.text.specs.Numbers.{number};
ghost use Rattle.text.specs.Pasting.{pasted};
ghost use Rattle.value.specs.mirror.Stored.{text_raw};
ghost use Rattle.value.specs.Places.{most_more, longest_text, longest_raw};

use text::part::part_of;
use text::run::run_end;
use text::span::{TURN, TURN_REST};
use text_bytes::number::{copy, get16};

// What is written for the three.
const AMP: [u8; 5] = *b"&amp;";

const LT: [u8; 4] = *b"&lt;";

const GT: [u8; 4] = *b"&gt;";

// How many bytes more than the one that they stand for.
const AMP_EXTRA: u32 = AMP.len() as u32 - 1;

const LT_EXTRA: u32 = LT.len() as u32 - 1;

const GT_EXTRA: u32 = GT.len() as u32 - 1;

// The longest of them.
const LONGEST: usize = AMP.len();

// None of the three; a row without neighbours is one test of a mask.
fn is_plain(x: u8) -> bool
    ensures { result ≡ is_plain x }
{
    match x {
        b'&' | b'<' | b'>' => false,
        _ => true,
    }
}

// As far as four bytes that are none of them follow, and four more; where one stops the run, up to it. It may stop early near the end of the
// text: what is left of the run is the same.
// Kept: by run_end alone a text of 400 bytes takes 296 ns and not 248, and two instructions a byte more (6.5, 4.3).
fn plain_fours(t: &[u8], at: usize) -> usize
    ensures { result + span is_plain (drop result t.now) ≡ at + span is_plain (drop at t.now) }
{
    if t.len() < TURN {
        return at;
    }
    let last = t.len() - TURN_REST;
    let mut i = at;
    while i < last {
        let j = i + 1;
        let k = j + 1;
        let l = k + 1;
        if !is_plain(t[i]) {
            return i;
        }
        if !is_plain(t[j]) {
            return j;
        }
        if !is_plain(t[k]) {
            return k;
        }
        if !is_plain(t[l]) {
            return l;
        }
        i = l + 1;
    }
    i
}

// Where the next of the three stands, or the end.
fn plain_end(t: &[u8], at: usize) -> usize
    ensures { result ≡ at + span is_plain (drop at t.now) }
{
    run_end(t, plain_fours(t, at), is_plain)
}

// How many bytes more than one are written for a byte: tests that only choose a number, so that several bytes are counted at a time.
// Kept: by the length of the entity's word the count goes byte by byte (docs/PROVING.md, a sum over bytes).
fn extra(x: u8) -> u32
    ensures is { result ≡ length (escape x) - 1 }
    ensures most { result ≤ most_more }
{
    if x == b'&' {
        return AMP_EXTRA;
    }
    if x == b'<' {
        return LT_EXTRA;
    }
    if x == b'>' {
        return GT_EXTRA;
    }
    0
}

// How many bytes are written for t.
fn raw_len(t: &[u8]) -> usize
    requires { length t.now ≤ longest_text }
    ensures { (result ≡ length (escaped t.now)) × (result ≤ longest_raw) }
{
    let more: u32 = t.iter().map(|x| extra(*x)).sum();
    t.len() + (more as usize)
}

// A word whose length the compiler knows, so that it copies the bytes in place: a word of any length would go through a loop.
fn put_word<const N: usize>(word: &[u8; N], out: &mut [u8], at: usize) -> usize
    ensures { (result ≡ N) × (out.new ≡ pasted out.old at word.now) }
{
    copy(word, 0, N, out, at);
    N
}

// The entity of one of the three; how many bytes it has.
fn put_mark(x: u8, out: &mut [u8], at: usize) -> usize
    ensures { is_marked x ≡ true → (result ≡ length (escape x)) × (out.new ≡ pasted out.old at (escape x)) }
{
    match x {
        b'&' => put_word(&AMP, out, at),
        b'<' => put_word(&LT, out, at),
        _ => put_word(&GT, out, at),
    }
}

// All of t, run by run; the place after it.
fn spread(t: &[u8], out: &mut [u8], at: usize) -> usize
    requires { at + length (escaped t.now) ≤ length out.old }
    ensures { (result ≡ at + length (escaped t.now)) × (out.new ≡ pasted out.old at (escaped t.now)) }
{
    let mut i = 0;
    let mut to = at;
    loop {
        let end = plain_end(t, i);
        copy(t, i, end, out, to);
        let mark = to + (end - i);
        if t.len() <= end {
            return mark;
        }
        to = mark + put_mark(t[end], out, mark);
        i = end + 1;
    }
}

// Whether t fits into so many bytes. Mostly it would if each byte were an entity, which needs no counting.
fn has_room(t: &[u8], room: usize) -> bool
    requires { length t.now ≤ longest_text }
    ensures { result ≡ leb (length (escaped t.now)) room }
{
    LONGEST * t.len() <= room || raw_len(t) <= room
}

// Writes t at a place of the buffer, and answers how many bytes that is. Where there is no room for it, it is counted and not written.
pub(crate) fn write_chars(t: &[u8], out: &mut [u8], at: usize) -> usize
    requires { length t.now ≤ longest_text }
    ensures { (result ≡ length (escaped t.now)) × ((result ≤ longest_raw) × (out.new ≡ pasted out.old at (escaped t.now))) }
{
    if out.len() < at {
        return raw_len(t);
    }
    if !has_room(t, out.len() - at) {
        return raw_len(t);
    }
    spread(t, out, at) - at
}

// The bytes of a text that stands at the start of b, as many as its first two bytes say, or as there are. Mostly they are there: this is
// the branch to go by, since the least of two lengths costs the writer one instruction in a hundred.
fn text_of(b: &[u8]) -> &[u8]
    ensures is { result.now ≡ slice 2 (2 + number (take 2 b.now)) b.now }
    ensures most { length result.now ≤ longest_text }
{
    let end = 2 + usize::from(get16(b, 0));
    if b.len() < end {
        return part_of(b, 2, b.len());
    }
    &b[2..end]
}

// REF, TXT, IBAN, CCY: as long as the first two bytes say.
pub fn write_text(b: &[u8], out: &mut [u8], at: usize) -> usize
    ensures { (result ≡ length (text_raw b.now)) × ((result ≤ longest_raw) × (out.new ≡ pasted out.old at (text_raw b.now))) }
{
    write_chars(text_of(b), out, at)
}
