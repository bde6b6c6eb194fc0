// The walk over a message that is house XML: its first violation, or its image's length. Nothing is written: values are only counted.

ghost use Rattle.std.specs.Prelude.{◌≡◌, [], ◌≤◌};
ghost use Rattle.std.proofs.Math.Seq.{slice};
ghost use Rattle.list.specs.tables.Table.{cell, words_in, list_of};
ghost use Rattle.file_walk.specs.mirror.Begin.{begin_in};
ghost use Rattle.file.specs.Instance.{house_kinds};
ghost use Rattle.file_measure.specs.Measured.{Measured};
ghost use Rattle.file_measure.specs.Pass.{WordSize, Sizes, Shuts, Opens, Ready};
ghost use Rattle.list.specs.tables.Columns.{KIND, DTM};
ghost use Rattle.text.specs.Puts.{near};

use answer::Answer;
use file_step::step::step;
use file_walk::step::{Here, Turn};
use list::kind::is_group;
use list::lookup::cell;
use list::table::{ENUM, KIND, MOST, MOST_LEVELS};
use list::word::word_byte;
use text::part::part_of;
use value_kinds::write::size;

// The place after the item of a group of this row, which is its row byte; of a leaf the same place.
fn group_end(rows: &[u16], row: usize, at: usize) -> usize
    requires { at ≤ near }
    ensures { Opens house_kinds rows.now row [] at result [] }
{
    if is_group(cell(rows, row, KIND)) {
        return at + 1;
    }
    at
}

// How many bytes an ENUM's word has, which are the one of its place in its row's list; none where it is no word of the list.
fn word_size(rows: &[u16], pool: &[u8], row: usize, word: &[u8]) -> Option<usize>
    ensures { WordSize (words_in rows.now pool.now row) word.now result }
{
    let byte = word_byte(rows, pool, row, word);
    (byte != 0).then_some(1)
}

// How many bytes the value has of a leaf of this row and kind with this raw text; none where the text spells none. No value has 0 bytes.
fn value_size(rows: &[u16], pool: &[u8], kind: usize, row: usize, t: &[u8]) -> Option<usize>
    requires { (kind ≡ cell rows.now row KIND) × (kind ≤ DTM) }
    ensures { Sizes house_kinds rows.now pool.now row t.now result }
{
    if kind == ENUM {
        return word_size(rows, pool, row, t);
    }
    let n = size(kind as u8, cell(rows, row, MOST), t);
    (n != 0).then_some(n)
}

// The place after the item of a leaf that ends at less, none where its text spells no value; of a group the same place.
fn leaf_end(
    rows: &[u16],
    pool: &[u8],
    s: &[u8],
    here: Here,
    less: usize,
    at: usize,
) -> Option<usize>
    requires { at ≤ near }
    ensures { Shuts house_kinds rows.now pool.now here.level.row (slice here.value here.quote s.now) (slice here.at less s.now) [] at result [] }
{
    let row = here.level.row;
    let kind = cell(rows, row, KIND);
    if is_group(kind) {
        return Some(at);
    }
    let n = value_size(rows, pool, kind, row, part_of(s, here.at, less))?;
    Some(at + 1 + n)
}

// The header and the root's row byte.
const HEAD: usize = 7;

// From the root's tag to its end, one step after the other. No sum overflows: each step goes on in a text of at most 1,048,576 bytes, and an
// item has at most 65,538. The tables are of any length; the one caller lends arrays, so that the compiler knows their lengths here. What
// stands on the stack above the innermost level is never read, so that it begins with any.
// Kept: a loop by hand, since each step reads and writes the stack of open levels, and where the next one begins only this one tells.
pub(crate) fn found(rows: &[u16], pool: &[u8], s: &[u8], root: Here) -> Result<usize, Answer>
    requires { Ready rows.now pool.now s.now × (begin_in rows.now pool.now s.now ≡ Ok root) }
    ensures { Measured house_kinds (list_of rows.now pool.now) s.now result }
{
    let mut stack = [root.level; MOST_LEVELS];
    let mut here = root;
    let mut at = HEAD;
    loop {
        match step(rows, pool, s, &mut stack, here)? {
            Turn::Opened(inner) => {
                at = group_end(rows, inner.level.row, at);
                here = inner;
            }
            Turn::Closed(outer, less) => {
                let bad = Answer::bad_value(here.level.row, here.level.place);
                at = leaf_end(rows, pool, s, here, less, at).ok_or(bad)?;
                here = outer;
            }
            Turn::Ended(_) => return Ok(at + 1),
        }
    }
}
