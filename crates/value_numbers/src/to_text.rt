// The text of a stored ENUM and BOOL; digits are written by `text`.

ghost use Rattle.std.specs.Prelude.{◌≡◌, ◌≤◌, length, get_or, not, eqb};
ghost use Rattle.text.specs.Pasting.{pasted};
ghost use Rattle.list.specs.tables.Table.{words_in};
ghost use Rattle.value.specs.mirror.Stored.{word_raw};
ghost use Rattle.value.specs.mirror.Stored.{truth_text};
ghost use Rattle.value.specs.Places.{longest_truth};

use list::word::nth_word;
use text_bytes::number::copy;
use value_shared::place::byte;

const TRUE: [u8; 4] = *b"true";

const FALSE: [u8; 5] = *b"false";

// ENUM: a word of capitals, which are copied as they stand.
pub fn write_word(
    rows: &[u16],
    pool: &[u8],
    row: usize,
    b: &[u8],
    out: &mut [u8],
    at: usize,
) -> usize
    ensures { (result ≡ length (word_raw (words_in rows.now pool.now row) b.now)) × ((result ≤ length pool.now) × (out.new ≡ pasted out.old at (word_raw (words_in rows.now pool.now row) b.now))) }
{
    let n = byte(b, 0);
    if n == 0 {
        return 0;
    }
    let word = nth_word(rows, pool, row, (n - 1) as usize);
    copy(word, 0, word.len(), out, at);
    word.len()
}

// "BOOL as `true` or `false`"
pub fn write_truth(b: &[u8], out: &mut [u8], at: usize) -> usize
    ensures { (result ≡ length (truth_text (not (eqb (get_or b.now 0 0) 0)))) × ((result ≤ longest_truth) × (out.new ≡ pasted out.old at (truth_text (not (eqb (get_or b.now 0 0) 0))))) }
{
    if byte(b, 0) == 0 {
        copy(&FALSE, 0, FALSE.len(), out, at);
        return FALSE.len();
    }
    copy(&TRUE, 0, TRUE.len(), out, at);
    TRUE.len()
}
