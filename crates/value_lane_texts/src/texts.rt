// TXTk and REF: runs of bytes that stand for themselves, by their level; what stops a run is looked at by itself.

ghost use Rattle.std.specs.Prelude.{◌≡◌, true, ◌+◌, ◌≤◌, ◌<◌, length, get_or};
ghost use Rattle.text_characters.specs.Pieces.{less};
ghost use Rattle.list.specs.Listing.{txt};
ghost use Rattle.value.specs.Kind.{code};
ghost use Rattle.value_leaf.specs.Leafed.{Leafed};
ghost use Rattle.value_levels.specs.mirror.Levels.{Leveled};
ghost use Rattle.value_lane_texts.specs.mirror.Going.{is_second, Umlaut, Going, Slashed};

use list::table;
use text_characters::piece::{entity_len, next_char};
use value::bounds::MOST_REF;
use value::packed::MOST_BYTES;
use value_leaf::found::{Found, tell};
use value_leaf::slow::slow;
use value_levels::class::{REFERENCE, TEXT, long_run, run};
use value_levels::table::Levels;
use value_texts::from_text::is_txt;

// The numbers of the two kinds, each a byte here.
const REF: u8 = table::REF as u8;

const TXT: u8 = table::TXT as u8;

// A text of TXTk that was read up to its end: `gone` of its bytes are entities', `tails` are more than its characters.
fn closed(s: &[u8], at: usize, k: usize, end: usize, gone: usize, tails: usize) -> Found
    requires { (at + gone + tails ≤ end) × (end < length s.now) × (get_or s.now end 0 ≡ less) }
    ensures { Going s.now at end gone tails → Leafed (code (txt k)) k s.now at result }
{
    let n = end - at - gone;
    if n == 0 {
        return slow(TXT, k, s, at);
    }
    if MOST_BYTES < n {
        return slow(TXT, k, s, at);
    }
    if k < n - tails {
        return slow(TXT, k, s, at);
    }
    if s[at] == b' ' {
        return slow(TXT, k, s, at);
    }
    tell(end, n + 2)
}

// Whether a byte is the second of a character of a text whose first is 0xC3.
fn is_second(b: u8) -> bool
    ensures { result ≡ true → is_second b ≡ true }
{
    match b {
        0x84 | 0x96 | 0x9C => true,
        0x9F | 0xA4 | 0xB6 | 0xBC => true,
        _ => false,
    }
}

// Whether one of these seven characters stands at a place.
fn is_umlaut(s: &[u8], at: usize) -> bool
    requires { at < length s.now }
    ensures { result ≡ true → Umlaut s.now at }
{
    if s[at] != 0xC3 {
        return false;
    }
    if s.len() <= at + 1 {
        return false;
    }
    is_second(s[at + 1])
}

pub fn writing(levels: &Levels, s: &[u8], at: usize, k: usize) -> Found
    ensures { Leveled levels.now → Leafed (code (txt k)) k s.now at result }
{
    let mut i = long_run(levels, s, at);
    let mut gone: usize = 0;
    let mut tails: usize = 0;
    while i < s.len() {
        let b = s[i];
        if b == b'<' {
            return closed(s, at, k, i, gone, tails);
        }
        if b == b'>' {
            return slow(TXT, k, s, at);
        }
        if is_umlaut(s, i) {
            tails += 1;
            i = run(levels, s, i + 2, TEXT);
            continue;
        }
        if b == b'&' {
            let len = entity_len(s, i);
            if len == 0 {
                return slow(TXT, k, s, at);
            }
            gone += len - 1;
            i = run(levels, s, i + len, TEXT);
            continue;
        }
        let c = next_char(s, i);
        let len = c.len;
        if !is_txt(c.code) {
            return slow(TXT, k, s, at);
        }
        tails += len - 1;
        i = run(levels, s, i + len, TEXT);
    }
    slow(TXT, k, s, at)
}

// A reference that was read up to its end.
fn referred(k: usize, s: &[u8], at: usize, end: usize) -> Found
    requires { (at < end) × (end < length s.now) × (get_or s.now end 0 ≡ less) }
    ensures { Slashed s.now at end → Leafed 2 k s.now at result }
{
    let long = end - at;
    if MOST_REF < long {
        return slow(REF, k, s, at);
    }
    if s[at] == b' ' {
        return slow(REF, k, s, at);
    }
    tell(end, long + 2)
}

// One without an entity: runs with a slash between two of them.
pub fn reference(levels: &Levels, k: usize, s: &[u8], at: usize) -> Found
    ensures { Leveled levels.now → Leafed 2 k s.now at result }
{
    let mut i = run(levels, s, at, REFERENCE);
    if i == at {
        return slow(REF, k, s, at);
    }
    while i < s.len() {
        let b = s[i];
        if b == b'<' {
            return referred(k, s, at, i);
        }
        if b != b'/' {
            return slow(REF, k, s, at);
        }
        let j = run(levels, s, i + 1, REFERENCE);
        if j == i + 1 {
            return slow(REF, k, s, at);
        }
        i = j;
    }
    slow(REF, k, s, at)
}
