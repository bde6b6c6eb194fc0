// The picker: the n-th leaf of a row in an image whose items begin at a place of a run.
#![tactic(auto)]

ghost use Rattle.std.specs.Prelude.{◌≡◌, ◌<◌, IfSome};
ghost use Rattle.image.specs.mirror.Ends.{item_end};
ghost use Rattle.image.specs.Pick.{Lies};
ghost use Rattle.image.specs.Means.{SelectsAnswer, SelectsPart};
ghost use Rattle.image.specs.mirror.Run.{Comes, head_of, hunt, Finds, Answered, Handed};
ghost use Rattle.image_picker.specs.Values.{place_of};

use answer::Answer;
use image_order::is_leaf;
use image_reader::item_end;
use list::lookup::cell;
use list::table::{CCY, CELLS, KIND};

// Where the value of a leaf stands, after its row byte, and where it ends.
#[derive(Clone, Copy)]
struct Value {
    at: usize,
    end: usize,
}

// How many bytes stand before a value's own: the two of a text's length.
pub fn head(rows: &[u16], r: usize) -> usize
    ensures { result ≡ head_of rows.now r }
{
    if cell(rows, r, KIND) <= CCY {
        return 2;
    }
    0
}

// The value of the n-th leaf of `row`; none where there is no such leaf.
fn find(rows: &[u16; CELLS], run: &[u8], from: usize, row: usize, n: usize) -> Option<Value>
    ensures is { Finds rows.now (item_end rows.now run.now) run.now from row n (place_of result) }
    ensures ends { IfSome result (λ v. (0 < v.at) × (v.end ≡ item_end rows.now run.now row v.at)) }
{
    if !is_leaf(rows, row) {
        return None;
    }
    find_leaf(rows, run, from, row, n)
}

// The same for a row of a leaf.
// Kept: a loop by a place, as the reader's is: the next item stands where this one ends.
fn find_leaf(rows: &[u16; CELLS], run: &[u8], from: usize, row: usize, n: usize) -> Option<Value>
    ensures is { Comes (hunt rows.now (item_end rows.now run.now) run.now row) (place_of result) n from }
    ensures ends { IfSome result (λ v. (0 < v.at) × (v.end ≡ item_end rows.now run.now row v.at)) }
{
    let mut left = n;
    let mut i = from;
    while i < run.len() {
        let at = i;
        let x = usize::from(run[at]);
        if x == 0 {
            return None;
        }
        let end = item_end(rows, run, x, at + 1)?;
        if x == row {
            if left == 0 {
                return Some(Value { at: at + 1, end });
            }
            left -= 1;
        }
        i = end;
    }
    None
}

// The answer for the n-th leaf, from 0, of `row`: its row, and where its part begins.
pub fn pick_from(rows: &[u16; CELLS], run: &[u8], from: usize, row: usize, n: usize) -> Answer
    ensures is { Answered rows.now (item_end rows.now run.now) run.now from row n result }
    ensures means { SelectsAnswer rows.now run.now from row n result }
{
    let Some(value) = find(rows, run, from, row, n) else {
        return Answer::no_such_leaf();
    };
    Answer::picked(row, value.at + head(rows, row))
}

// Its part of the run: the value's bytes without row byte and length, empty where `pick_from` refuses.
pub fn picked_from<'a>(
    rows: &[u16; CELLS],
    run: &'a [u8],
    from: usize,
    row: usize,
    n: usize,
) -> &'a [u8]
    ensures is { Handed rows.now (item_end rows.now run.now) run.now from row n result.now }
    ensures means { SelectsPart rows.now run.now from row n result.now }
    ensures lies { (a : Answer) → Answered rows.now (item_end rows.now run.now) run.now from row n a → a.code ≡ 0 → Lies run.entry a.place result }
{
    let Some(value) = find(rows, run, from, row, n) else {
        return &run[0..0];
    };
    &run[value.at + head(rows, row)..value.end]
}
