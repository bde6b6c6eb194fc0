// The reader: the items of an image from a place of a run on, one by one. No item is read twice, and the row of the last one is all that is kept.
#![tactic(auto)]

ghost use Rattle.std.specs.Prelude.{◌≡◌, ◌<◌, ◌≤◌, IfSome};
ghost use Rattle.image.specs.mirror.Ends.{item_end};
ghost use Rattle.image.specs.mirror.Run.{Took, Behind};
ghost use Rattle.image.specs.Means.{ItemEnds, Told};
ghost use Rattle.image_reader.specs.Taken.{end_of, taken_end, answer_of, count_of};

use image_order::{ended, follows, is_leaf};
use list::lookup::cell;
use list::table::{CELLS, KIND, MOST, WORD_COUNT};
use value_kinds_stored::end::value_end;

// The items from a place on: where they end, after the closing 0, and how many there are, it among them.
#[derive(Clone, Copy)]
pub struct Items {
    pub end: usize,
    pub count: usize,
}

// Where they break, and how many whole ones were taken before.
#[derive(Clone, Copy)]
pub struct Broken {
    pub at: usize,
    pub count: usize,
}

// Where the item of row x ends whose row byte stands before `at`; none where no value of its type stands there.
pub fn item_end(rows: &[u16], run: &[u8], x: usize, at: usize) -> Option<usize>
    ensures is { end_of result ≡ item_end rows.now run.now x at }
    ensures whole { result ≡ taken_end rows.now run.now x at }
    ensures means { ItemEnds rows.now run.now x at (end_of result) }
    ensures on { IfSome result (λ end. at ≤ end) }
{
    if !is_leaf(rows, x) {
        return Some(at);
    }
    let end = value_end(
        cell(rows, x, KIND),
        cell(rows, x, MOST),
        cell(rows, x, WORD_COUNT),
        run,
        at,
    );
    if end == 0 {
        return None;
    }
    Some(end)
}

// From after the root's row byte on, which is the first item.
// Kept: a loop by a place, for the next item stands where this one ends: no range or iterator of the library has these places. It does not ask
// `item_end`, which is then a call for each group too: a fifth more instructions (85,000 to 102,000 for an image of 3,900 bytes).
fn read_items(rows: &[u16], run: &[u8], from: usize) -> Result<Items, Broken>
    requires { 0 < from }
    ensures { Took rows.now (item_end rows.now run.now) run.now from (answer_of result) (count_of result) }
{
    let mut q = 1;
    let mut i = from;
    let mut count: usize = 1;
    while i < run.len() {
        let at = i;
        let x = usize::from(run[at]);
        if x == 0 {
            if ended(rows, q) {
                return Ok(Items {
                    end: at + 1,
                    count: count + 1,
                });
            }
            return Err(Broken { at, count });
        }
        if !follows(rows, q, x) {
            return Err(Broken { at, count });
        }
        q = x;
        if is_leaf(rows, x) {
            i = value_end(
                cell(rows, x, KIND),
                cell(rows, x, MOST),
                cell(rows, x, WORD_COUNT),
                run,
                at + 1,
            );
            if i == 0 {
                return Err(Broken { at, count });
            }
            count += 1;
        } else {
            i = at + 1;
            count += 1;
        }
    }
    Err(Broken { at: i, count })
}

// The items from a place of a run on. The table is an array of 256 rows and not a slice: the compiler knows its length, so that no lookup in it
// asks for its end.
pub fn body(rows: &[u16; CELLS], run: &[u8], from: usize) -> Result<Items, Broken>
    ensures is { Behind rows.now (item_end rows.now run.now) run.now from (answer_of result) (count_of result) }
    ensures means { Told rows.now run.now from (answer_of result) (count_of result) }
{
    if run.get(from) != Some(&1) {
        return Err(Broken { at: from, count: 0 });
    }
    read_items(rows, run, from + 1)
}
