// The text of a stored value of any kind.

ghost use Rattle.std.specs.Prelude.{◌≡◌, ◌+◌, ◌≤◌, length};
ghost use Rattle.text.specs.Pasting.{pasted};
ghost use Rattle.value.specs.mirror.Stored.{raw_at};
ghost use Rattle.value.specs.Places.{longest_raw};

use list::lookup::cell;
use list::table::{AMT, BOOL, CCY, DATE, DTM, ENUM, KIND, NUM, REF};
use text::part::part_of;
use text_bytes::number::get64;
use text_digits::decimal;
use value::packed::{COEFFICIENT, SCALE};
use value_dates_put::to_text::{write_day, write_moment};
use value_numbers::to_text::{write_truth, write_word};
use value_shared::place::byte;
use value_texts_put::to_text::write_text;

// Writes the text of the value of a leaf of `row` that stands at a place of the run, and answers how many bytes it has. An amount's
// currency is no part of it.
// Kept: where nothing is written, 0 is the number of bytes, and no sign that there is none.
pub fn put(
    rows: &[u16],
    pool: &[u8],
    row: usize,
    run: &[u8],
    i: usize,
    out: &mut [u8],
    at: usize,
) -> usize
    ensures { (result ≡ length (raw_at rows.now pool.now row run.now i)) × ((result ≤ longest_raw + length pool.now) × (out.new ≡ pasted out.old at (raw_at rows.now pool.now row run.now i))) }
{
    let b = part_of(run, i, run.len());
    match cell(rows, row, KIND) {
        REF..=CCY => write_text(b, out, at),
        ENUM => write_word(rows, pool, row, b, out, at),
        BOOL => write_truth(b, out, at),
        NUM => decimal::put(out, at, get64(b, 0)),
        AMT => decimal::put_pointed(out, at, get64(b, COEFFICIENT), byte(b, SCALE)),
        DATE => write_day(b, out, at),
        DTM => write_moment(b, out, at),
        _ => 0,
    }
}
