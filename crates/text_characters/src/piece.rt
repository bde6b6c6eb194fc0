// Pieces of text and of attribute values: characters as they stand, and the five entities.

ghost use Rattle.std.specs.Prelude.{◌≡◌, drop};
ghost use Rattle.text.specs.Words.{starts};
ghost use Rattle.text_characters.specs.Pieces.{is_xml_char};
ghost use Rattle.text_characters.specs.Chars.{char_of, NextChar, EntityNumber, EntityLen};
ghost use Rattle.text_characters.specs.mirror.Resolving.{entity_at, plain_at};

use crate::utf8::{Char, char_of, decode, pair, wide};
use text::part::rest;

// The five entities as they are spelled, and the characters that they stand for.
const AMP: [u8; 5] = *b"&amp;";

const LT: [u8; 4] = *b"&lt;";

const GT: [u8; 4] = *b"&gt;";

const QUOT: [u8; 6] = *b"&quot;";

const APOS: [u8; 6] = *b"&apos;";

const AMPERSAND: u32 = b'&' as u32;

const LESS: u32 = b'<' as u32;

const GREATER: u32 = b'>' as u32;

const QUOTE: u32 = b'"' as u32;

const APOSTROPHE: u32 = b'\'' as u32;

// An entity is told as one number and no struct, so that it goes through no memory: each of its bytes counts so much, its character is less.
pub const PER_BYTE: u32 = 256;

const AMP_NUMBER: u32 = AMP.len() as u32 * PER_BYTE + AMPERSAND;

const LT_NUMBER: u32 = LT.len() as u32 * PER_BYTE + LESS;

const GT_NUMBER: u32 = GT.len() as u32 * PER_BYTE + GREATER;

const QUOT_NUMBER: u32 = QUOT.len() as u32 * PER_BYTE + QUOTE;

const APOS_NUMBER: u32 = APOS.len() as u32 * PER_BYTE + APOSTROPHE;

fn is_xml_char(c: u32) -> bool
    ensures { result ≡ is_xml_char c }
{
    match c {
        0x9..=0xA => true,
        0xD => true,
        0x20..=0xD7FF => true,
        0xE000..=0xFFFD => true,
        0x10000..=0x10FFFF => true,
        _ => false,
    }
}

// Most characters are a byte of ASCII: they need no call.
fn ascii_char(x: u8) -> Char
    ensures { result ≡ plain_at (char_of 1 x) }
{
    let c = wide(x);
    if is_xml_char(c) {
        return char_of(1, c);
    }
    char_of(0, 0)
}

// Whether s goes on with the word at a place. An entity parts from the words before its own at its second or third byte.
// Kept: by `begins`, which reads each word to its end, the number of `&apos;` takes 73 instructions and not 33.
fn spells(s: &[u8], at: usize, word: &[u8]) -> bool
    ensures { result ≡ starts word.now (drop at s.now) }
{
    let there = rest(s, at);
    if there.len() < word.len() {
        return false;
    }
    for (k, byte) in word.iter().enumerate() {
        if there[k] != *byte {
            return false;
        }
    }
    true
}

// The number of the entity that stands at a place, 0 where none does.
pub fn entity_number(s: &[u8], at: usize) -> u32
    ensures { EntityNumber (drop at s.now) result }
{
    if spells(s, at, &AMP) {
        return AMP_NUMBER;
    }
    if spells(s, at, &LT) {
        return LT_NUMBER;
    }
    if spells(s, at, &GT) {
        return GT_NUMBER;
    }
    if spells(s, at, &QUOT) {
        return QUOT_NUMBER;
    }
    if spells(s, at, &APOS) {
        return APOS_NUMBER;
    }
    0
}

// How many bytes it has, 0 where none does.
pub fn entity_len(s: &[u8], at: usize) -> usize
    ensures { EntityLen (drop at s.now) result }
{
    (entity_number(s, at) / PER_BYTE) as usize
}

fn entity(s: &[u8], at: usize) -> Char
    ensures { result ≡ entity_at (drop at s.now) }
{
    let n = entity_number(s, at);
    char_of((n / PER_BYTE) as usize, n % PER_BYTE)
}

// The character that begins at a place, entities resolved, and how many bytes spell it.
pub fn next_char(s: &[u8], at: usize) -> Char
    ensures { NextChar (drop at s.now) result }
{
    if s.len() <= at {
        return char_of(0, 0);
    }
    let x = s[at];
    if x == b'&' {
        return entity(s, at);
    }
    if x == b'<' {
        return char_of(0, 0);
    }
    if x < 0x80 {
        return ascii_char(x);
    }
    let two = pair(s, at);
    if two != 0 {
        return char_of(2, two);
    }
    let c = decode(s, at);
    if is_xml_char(c.code) {
        return c;
    }
    char_of(0, 0)
}
