// The value of a leaf that is known to be good, put from its text: nothing is judged again.

ghost use Rattle.std.specs.Prelude.{◌≡◌, ℕ, ◌+◌, ◌≤◌, length};
ghost use Rattle.list.specs.Listing.{date};
ghost use Rattle.value.specs.Kind.{code};
ghost use Rattle.file_nodes.specs.mirror.Fields.{width, letters, too_far};
ghost use Rattle.text.specs.Little.{Loaded};
ghost use Rattle.file_fill.specs.mirror.Copying.{TextAsked, TextLaid};
ghost use Rattle.file_fill.specs.mirror.Fills.{word_in, LeafAsked, LeafLaid, OtherLaid};

use file_chunks::four;
use file_nodes::fields::{COINED, CURRENCY, LETTERS, MORE_WORDS, SINGLE, UPPER, WORDS};
use text::part::part_of;
use text_bytes::number::{copy, put16};
use text_characters::piece::{PER_BYTE, entity_number};
use value::judged::Judged;
use value_dates::day::day;
use value_dates_stored::to_bytes::write_day;
use value_kinds::write::write;
use value_leaf::slow::text_end;
use value_levels::plain::plain_end;
use value_shared::place::place;

// The place after an item in the image, and after its text.
#[derive(Clone, Copy)]
pub(crate) struct Put {
    pub at: usize,
    pub end: usize,
}

// "16-bit byte length"
const LENGTHS: usize = 65536;

// The characters of a text, after their length: runs as they stand, an entity as its one byte.
pub(crate) fn put_text(s: &[u8], at: usize, out: &mut [u8], to: usize) -> Put
    requires { TextAsked s.now at out.old to }
    ensures { TextLaid s.now at out.old to result.at result.end out.new }
{
    let mut from = at;
    let mut o = to + 2;
    loop {
        let i = plain_end(s, from);
        copy(s, from, i, out, o);
        o += i - from;
        if s[i] == b'<' {
            put16(out, to, ((o - to - 2) % LENGTHS) as u16);
            return Put { at: o, end: i };
        }
        let e = entity_number(s, i);
        place(out, o, (e % PER_BYTE) as u8);
        o += 1;
        from = i + (e / PER_BYTE) as usize;
    }
}

// What is no text, by its checker: the currency of an amount goes from c on.
fn put_other(kind: u8, s: &[u8], c: usize, at: usize, out: &mut [u8], to: usize) -> Put
    requires { (c ≤ too_far) × (to ≤ length out.old) }
    ensures { OtherLaid kind s.now c at out.old to result.at result.end out.new }
{
    let end = text_end(s, at);
    let t = part_of(s, at, end);
    let ccy = part_of(s, c, c + CURRENCY);
    let n = write(kind, 0, t, ccy, out, to);
    Put { at: to + n, end }
}

const DATE: u8 = 10;

// The bytes of a day, and with the `<` after it.
const DAY: usize = 10;

const DAY_AND_END: usize = DAY + 1;

// A day, mostly ten bytes and then `<`.
fn put_day(s: &[u8], at: usize, out: &mut [u8], to: usize) -> Put
    requires { (at ≤ too_far) × (to ≤ length out.old) }
    ensures { OtherLaid (code date) s.now at at out.old to result.at result.end out.new }
{
    if s.len() < at + DAY_AND_END {
        return put_other(DATE, s, at, at, out, to);
    }
    let end = at + DAY;
    if s[end] != b'<' {
        return put_other(DATE, s, at, at, out, to);
    }
    match day(&s[at..end]) {
        Some(Judged::Day(date)) => {
            let n = write_day(out, to, date.year, date.month, date.day);
            Put { at: to + n, end }
        }
        _ => put_other(DATE, s, at, at, out, to),
    }
}

// The places of the last two words.
const THIRD: u8 = 3;

const FOURTH: u8 = 4;

// The place of a word of four letters among those of a node.
fn word(nodes: &[u64], k: usize, s: &[u8], at: usize) -> u8
    requires { (k + width ≤ length nodes.now) × (at ≤ too_far) }
    ensures { (x : ℕ) × Loaded letters s.now at x × (result ≡ word_in nodes.now k x) }
{
    let x = four(s, at);
    let a = nodes[k + WORDS];
    let b = nodes[k + MORE_WORDS];
    if x == a % UPPER {
        return 1;
    }
    if x == a / UPPER {
        return 2;
    }
    if x == b % UPPER {
        return THIRD;
    }
    FOURTH
}

const ENUM: u8 = 6;

const AMT: u8 = 9;

// The value of a leaf of this kind, from the place after its node's bytes on.
pub(crate) fn put_value(
    nodes: &[u64],
    k: usize,
    kind: u8,
    s: &[u8],
    at: usize,
    out: &mut [u8],
    to: usize,
) -> Put
    requires { LeafAsked nodes.now k kind s.now at out.old to }
    ensures { LeafLaid nodes.now k kind s.now at out.old to result.at result.end out.new }
{
    if kind < ENUM {
        return put_text(s, at, out, to);
    }
    if kind == ENUM {
        place(out, to, word(nodes, k, s, at));
        return Put {
            at: to + 1,
            end: at + LETTERS,
        };
    }
    if kind == DATE {
        return put_day(s, at, out, to);
    }
    if (kind == AMT) | (kind == SINGLE) {
        return put_other(AMT, s, at, at + COINED, out, to);
    }
    put_other(kind, s, at, at, out, to)
}
