// What an image may hold and a file may not say any more: the first item of a row that is gone, or else the first finer date-time.
ghost use Rattle.std.specs.Prelude.{◌≡◌, ◌≤◌, ◌<◌, drop, IfSome};
ghost use Rattle.file_write.specs.mirror.Stale.{place_in, finer_by, noted_by, Searched, Stale};
ghost use Rattle.answer.specs.Table.{limit};

use crate::emit::after;
use file_answers::is_gone;
use list::kind::is_group;
use list::lookup::cell;
use list::table::{CELLS, DTM, KIND};
use text_bytes::number::get32;
use value::bounds::THOUSANDTH;
use value::packed::MICROS;

// A date-time, whose bytes stand from i on, with a part of a second below a thousandth.
fn is_finer(kind: usize, run: &[u8], i: usize) -> bool
    requires { i ≤ limit }
    ensures { result ≡ finer_by kind (drop i run.now) }
{
    if kind != DTM {
        return false;
    }
    get32(run, i + MICROS) % THOUSANDTH != 0
}

// The place of the first finer date-time: the one that was noted before, or else that of the leaf at i, if it is one.
fn noted(before: Option<usize>, kind: usize, run: &[u8], i: usize) -> Option<usize>
    requires { (i < limit) × (0 < i) × IfSome before (λ p. 0 < p) }
    ensures is { place_in result ≡ noted_by (place_in before) kind run.now i }
    ensures some { IfSome result (λ p. 0 < p) }
{
    if before.is_some() {
        return before;
    }
    if is_finer(kind, run, i + 1) {
        return Some(i);
    }
    None
}

// Its place, none where there is none: items stand after a header. The root is a group with a name, so that the second item is the first to be
// asked. A row that is gone ends the search: it comes before a finer date-time, wherever that stands.
// Kept: a loop by a place, as `emit` is: the next item stands where this one ends.
pub(crate) fn first_stale(
    rows: &[u16; CELLS],
    pool: &[u8],
    run: &[u8],
    from: usize,
) -> Option<usize>
    requires { Searched rows.now pool.now run.now from }
    ensures is { Stale rows.now pool.now run.now from (place_in result) }
    ensures some { IfSome result (λ p. 0 < p) }
{
    let mut finer = None;
    let mut i = from + 1;
    loop {
        let x = usize::from(run[i]);
        if x == 0 {
            return finer;
        }
        if is_gone(rows, pool, x) {
            return Some(i);
        }
        let kind = cell(rows, x, KIND);
        if is_group(kind) {
            i += 1;
        } else {
            finer = noted(finer, kind, run, i);
            i = after(kind, run, i + 1);
        }
    }
}
