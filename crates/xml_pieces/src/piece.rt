// A piece of text or of a value: an XML 1.0 character in UTF-8 (Unicode, table 3-7, without U+FFFE and U+FFFF), or an entity.
ghost use Rattle.std.specs.Prelude.{◌≡◌, ◌<◌, length, get_or, drop};
ghost use Rattle.xml.specs.mirror.Auto.{ampersand, ampersand_a, ef, lead, go_on};
ghost use Rattle.xml_pieces.specs.Over.{Over};
ghost use Rattle.xml_pieces.specs.Kinds.{IsPiece};
ghost use Rattle.xml_pieces.specs.mirror.Reading.{least_behind, greatest_behind, reading, ReadsOne, ReadsTwo, ReadsThree};

use crate::Stopped;
use crate::word::word;
use text::class::is_blank;

// A byte that goes on with a sequence is one of these.
const TAIL: u8 = 0x80;

const LAST_TAIL: u8 = 0xBF;

const LAST_ASCII: u8 = TAIL - 1;

const LAST_CONTROL: u8 = b' ' - 1;

// Over one byte from low to high.
fn one(s: &[u8], at: usize, low: u8, high: u8) -> Result<usize, Stopped>
    ensures { ReadsOne s.now at low high result }
{
    if s.len() <= at {
        return Err(Stopped { at });
    }
    let x = s[at];
    if x < low {
        return Err(Stopped { at });
    }
    if high < x {
        return Err(Stopped { at });
    }
    Ok(at + 1)
}

// Over one byte from low to high, and a continuation byte.
fn two(s: &[u8], at: usize, low: u8, high: u8) -> Result<usize, Stopped>
    ensures { ReadsTwo s.now at low high result }
{
    one(s, one(s, at, low, high)?, TAIL, LAST_TAIL)
}

// Over one byte from low to high, and two continuation bytes.
fn three(s: &[u8], at: usize, low: u8, high: u8) -> Result<usize, Stopped>
    ensures { ReadsThree s.now at low high result }
{
    two(s, one(s, at, low, high)?, TAIL, LAST_TAIL)
}

// After EF: EF BF may be followed by BD at most, since U+FFFE and U+FFFF are no XML 1.0 characters.
fn behind_ef(s: &[u8], at: usize) -> Result<usize, Stopped>
    ensures { result ≡ reading (go_on ef) (drop at s.now) at }
{
    if s.len() <= at {
        return Err(Stopped { at });
    }
    if s[at] == LAST_TAIL {
        return one(s, at + 1, TAIL, 0xBD);
    }
    two(s, at, TAIL, 0xBE)
}

// The least byte that may follow a first byte of three or four.
fn least(x: u8) -> u8
    ensures { result ≡ least_behind x }
{
    match x {
        0xE0 => 0xA0,
        0xF0 => 0x90,
        _ => TAIL,
    }
}

// The greatest byte that may follow it.
fn greatest(x: u8) -> u8
    ensures { result ≡ greatest_behind x }
{
    match x {
        0xED => 0x9F,
        0xF4 => 0x8F,
        _ => LAST_TAIL,
    }
}

// A character that begins with a byte x that is no ASCII.
fn long(s: &[u8], at: usize) -> Result<usize, Stopped>
    requires { (at < length s.now) × (0x7F < get_or s.now at 0) }
    ensures { result ≡ reading lead (drop at s.now) at }
{
    let x = s[at];
    let i = at + 1;
    if x < 0xC2 {
        return Err(Stopped { at });
    }
    if x < 0xE0 {
        return one(s, i, TAIL, LAST_TAIL);
    }
    if x == 0xEF {
        return behind_ef(s, i);
    }
    let low = least(x);
    let high = greatest(x);
    if x < 0xF0 {
        return two(s, i, low, high);
    }
    if x < 0xF5 {
        return three(s, i, low, high);
    }
    Err(Stopped { at })
}

// After `&a`: `mp;` or `pos;`.
fn behind_a(s: &[u8], at: usize) -> Result<usize, Stopped>
    ensures { result ≡ reading (go_on ampersand_a) (drop at s.now) at }
{
    if s.len() <= at {
        return Err(Stopped { at });
    }
    match s[at] {
        b'm' => word(s, at + 1, b"p;"),
        b'p' => word(s, at + 1, b"os;"),
        _ => Err(Stopped { at }),
    }
}

// After `&`: the rest of one of the five entities.
fn entity(s: &[u8], at: usize) -> Result<usize, Stopped>
    ensures { result ≡ reading (go_on ampersand) (drop at s.now) at }
{
    if s.len() <= at {
        return Err(Stopped { at });
    }
    match s[at] {
        b'a' => behind_a(s, at + 1),
        b'g' | b'l' => word(s, at + 1, b"t;"),
        b'q' => word(s, at + 1, b"uot;"),
        _ => Err(Stopped { at }),
    }
}

// Over the piece at the place.
pub fn piece(s: &[u8], at: usize) -> Result<usize, Stopped>
    ensures { Over IsPiece (drop at s.now) at result }
{
    if s.len() <= at {
        return Err(Stopped { at });
    }
    let x = s[at];
    if LAST_ASCII < x {
        return long(s, at);
    }
    if x == b'&' {
        return entity(s, at + 1);
    }
    if x == b'<' {
        return Err(Stopped { at });
    }
    if LAST_CONTROL < x {
        return Ok(at + 1);
    }
    if is_blank(x) {
        return Ok(at + 1);
    }
    Err(Stopped { at })
}
