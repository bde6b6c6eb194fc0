// The words of an ENUM, which stand in the pool with single spaces between them.
ghost use Rattle.std.specs.Prelude.{◌≡◌, [], get_or};
ghost use Rattle.list.specs.tables.Table.{byte_of, place_in, words_in};

use crate::lookup::named_part;
use crate::table::{WORDS, WORDS_END};
use text::part::same;

// The place, from 1, of a word among the words of row r; 0 where it is none of them, as in a row without words.
pub fn word_place(rows: &[u16], pool: &[u8], r: usize, word: &[u8]) -> usize
    ensures { result ≡ place_in (words_in rows.now pool.now r) word.now }
{
    let text = named_part(rows, pool, r, WORDS, WORDS_END);
    if text.is_empty() {
        return 0;
    }
    text.split(|b| *b == b' ')
        .position(|w| same(w, word))
        .map_or(0, |i| i + 1)
}

// The n-th word of row r, from 0: that part of the pool, empty where there is none.
pub fn nth_word<'a>(rows: &[u16], pool: &'a [u8], r: usize, n: usize) -> &'a [u8]
    ensures { result.now ≡ get_or (words_in rows.now pool.now r) n [] }
{
    let text = named_part(rows, pool, r, WORDS, WORDS_END);
    text.split(|b| *b == b' ').nth(n).unwrap_or(&text[..0])
}

// The place of a word as the byte of an image; 0 also where no byte has it, which no well-formed list makes happen.
// Kept: 0 for none, since it is the one byte that is no place ("place in its list from 1", document 01).
pub fn word_byte(rows: &[u16], pool: &[u8], r: usize, word: &[u8]) -> u8
    ensures { result ≡ byte_of (place_in (words_in rows.now pool.now r) word.now) }
{
    u8::try_from(word_place(rows, pool, r, word)).unwrap_or(0)
}
