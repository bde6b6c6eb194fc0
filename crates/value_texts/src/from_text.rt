// REF and TXTk: one loop for both, over raw text with entities. Its turn is a character of any kind, and the run of quiet bytes after it,
// each of which is a character of the class by itself: these are counted at once.

ghost use Rattle.std.specs.Prelude.{◌+◌, ◌%◌, ◌≡◌, ◌&&◌, not, ◌||◌, cond, eqb, drop};
ghost use Rattle.value.specs.mirror.Pages.{bit_of, word_in, words, word_of, ref_words, quiet_words, page};
ghost use Rattle.value.specs.types.Text.{is_txt, is_ref};
ghost use Rattle.value.specs.mirror.Tests.{not_space};
ghost use Rattle.value.specs.mirror.Texts.{class_of, width_of, quiet_txt, quiet_of, text_of, Spelled};
ghost use Rattle.text.specs.Lists.{span};
ghost use Rattle.text.specs.Bytes.{code};

use text::run::run_end;
use text_characters::piece::next_char;
use value::judged::Judged;

// How many code points a page has, each a bit of its word; the last page of a byte, and the euro's.
const PAGE: u32 = 64;

const LAST_PAGE: u32 = 3;

const EURO_PAGE: u32 = 0x20AC / PAGE;

// The words of TXT's pages: from U+0000 on all but the control characters; from U+0040 on all but the backtick and the last, U+007F; from
// U+0080 on `§` and `°`; from U+00C0 on `Ä`, `Ö`, `Ü`, `ß`, `ä`, `ö` and `ü`; the euro.
const SIGNS: u64 = 0xFFFFFFFF00000000;

const LETTERS: u64 = 0x7FFFFFFEFFFFFFFF;

const MARKS: u64 = 0x0001008000000000;

const UMLAUTS: u64 = 0x1040001090400010;

const EURO: u64 = 0x0000100000000000;

// The words of REF's pages without the slash, and that of TXT's first one without `&` and `<`.
const REF_SIGNS: u64 = 0x87FF7B8100000000;

const REF_LETTERS: u64 = 0x07FFFFFE07FFFFFE;

const QUIET_SIGNS: u64 = 0xEFFFFFBF00000000;

const SPACE: u32 = b' ' as u32;

const SLASH: u32 = b'/' as u32;

// The first code point beyond ASCII, and the last of it.
const BEYOND: u32 = 0x80;

const LAST_ASCII: u32 = BEYOND - 1;

// Whether the bit of a code point is 1 in the word of its page.
fn has_bit(word: u64, c: u32) -> bool
    ensures { result ≡ bit_of word (c % page) }
{
    (word >> (c % PAGE)) % 2 == 1
}

// The words of the first four pages, of 64 code points each. To the compiler such a `match` is a table; with the euro's page among its keys it
// would be a jump.
fn low_word(page: u32) -> u64
    ensures { result ≡ word_in words page }
{
    match page {
        0 => SIGNS,
        1 => LETTERS,
        2 => MARKS,
        LAST_PAGE => UMLAUTS,
        _ => 0,
    }
}

// The word of the page that a code point is on.
fn word(c: u32) -> u64
    ensures { result ≡ word_of c }
{
    if c < 256 {
        return low_word(c / PAGE);
    }
    if c / PAGE == EURO_PAGE {
        return EURO;
    }
    0
}

// Whether a character may stand in a text.
pub fn is_txt(c: u32) -> bool
    ensures { result ≡ is_txt c }
{
    has_bit(word(c), c)
}

// The words of the bytes that a reference may have, but for the slash; those of a byte's last two pages are here to make it a table.
fn ref_word(page: u32) -> u64
    ensures { result ≡ word_in ref_words page }
{
    match page {
        0 => REF_SIGNS,
        1 => REF_LETTERS,
        2 => 0,
        LAST_PAGE => 0,
        _ => 0,
    }
}

// A byte that a reference may have and that is no slash, which must be looked at.
pub fn is_quiet_ref(b: u8) -> bool
    ensures { result ≡ (is_ref b && not (eqb b (code "/"))) }
{
    let c = b as u32;
    has_bit(ref_word(c / PAGE), c)
}

fn is_ref(c: u32) -> bool
    ensures { result ≡ is_ref c }
{
    c == SLASH || (c <= LAST_ASCII && is_quiet_ref(c as u8))
}

// Whether a character may stand in a reference (strict) or in a text.
fn fits(strict: bool, c: u32) -> bool
    ensures { result ≡ class_of strict c }
{
    if strict {
        return is_ref(c);
    }
    is_txt(c)
}

fn inked(ink: bool, c: u32) -> bool
    ensures { result ≡ (ink || not_space c) }
{
    ink || c != SPACE
}

fn slash_and(flag: bool, c: u32) -> bool
    ensures { result ≡ (flag && eqb c (code "/")) }
{
    flag && c == SLASH
}

fn width(len: usize, code: u32) -> usize
    ensures { result ≡ width_of len code }
{
    if code < BEYOND {
        return 1;
    }
    len
}

// Whether a reference may not go on with a slash: a character and a run of bytes that are none stand before.
fn slash_behind(strict: bool, c: u32, run: usize) -> bool
    ensures { result ≡ (eqb run 0 && (strict && eqb c (code "/"))) }
{
    run == 0 && slash_and(strict, c)
}

// The words of the bytes that a text may have and that stand for themselves; those of a byte's last two pages are here to make it a table.
fn quiet_word(page: u32) -> u64
    ensures { result ≡ word_in quiet_words page }
{
    match page {
        0 => QUIET_SIGNS,
        1 => LETTERS,
        2 => 0,
        LAST_PAGE => 0,
        _ => 0,
    }
}

fn is_quiet_txt(b: u8) -> bool
    ensures { result ≡ quiet_txt b }
{
    let c = b as u32;
    has_bit(quiet_word(c / PAGE), c)
}

fn is_quiet(strict: bool, b: u8) -> bool
    ensures { result ≡ quiet_of strict b }
{
    if strict {
        return is_quiet_ref(b);
    }
    is_quiet_txt(b)
}

fn quiet_end(s: &[u8], at: usize, strict: bool) -> usize
    ensures { result ≡ at + span (quiet_of strict) (drop at s.now) }
{
    run_end(s, at, |b| is_quiet(strict, b))
}

// How many quiet bytes follow. While only spaces were read, none is passed over: one that is no space is looked for.
fn run_of(s: &[u8], at: usize, strict: bool, ink: bool) -> usize
    ensures { result ≡ cond ink (span (quiet_of strict) (drop at s.now)) 0 }
{
    if ink {
        return quiet_end(s, at, strict) - at;
    }
    0
}

// The raw text of a reference (strict, k is 35) or of TXTk: how many bytes its characters have.
pub fn spelled(s: &[u8], strict: bool, k: usize) -> Option<Judged>
    ensures { Spelled (text_of strict k) s.now result }
{
    let mut i = 0;
    let mut n: usize = 0;
    let mut size: usize = 0;
    let mut ink = false;
    let mut slash = strict;
    while i < s.len() {
        if k <= n {
            return None;
        }
        let c = next_char(s, i);
        let len = c.len;
        let code = c.code;
        if !fits(strict, code) {
            return None;
        }
        if slash_and(slash, code) {
            return None;
        }
        n += 1;
        ink = inked(ink, code);
        let run = run_of(s, i + len, strict, ink);
        if k - n < run {
            return None;
        }
        i += len + run;
        n += run;
        size += width(len, code) + run;
        slash = slash_behind(strict, code, run);
    }
    if slash {
        return None;
    }
    if ink {
        return Some(Judged::Text(size));
    }
    None
}
