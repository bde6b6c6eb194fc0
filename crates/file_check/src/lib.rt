// A file checked: its image at the start of a lent buffer, or the one answer that says why there is none.
#![tactic(auto)]

ghost use Rattle.file.specs.Checks.{Checks};

use answer::Answer;
use file_fill::laned;
use file_measure::measured;
use fill::fill;
use list_house::by_byte::rows_of;
use list_house::tables::pool;

mod fill; // fill.rt: the exact pass that writes

// By the exact passes. A file is measured first, so that a byte is written only where the whole image fits. Measuring also tells which list it chose.
fn exact(input: &[u8], out: &mut [u8]) -> Answer
    ensures { Checks input.now out.old result out.new }
{
    let good = match measured(input) {
        Ok(good) => good,
        Err(refusal) => return refusal,
    };
    if out.len() < good.size {
        return Answer::no_room(good.size);
    }
    let rows = rows_of(good.kind);
    let pool = pool();
    fill(&rows, &pool, input, good.kind as u8, out);
    Answer::accepted(good.size)
}

// What the lane knows is so, and written where it fits in; where it knows nothing the exact passes decide.
pub fn check(input: &[u8], out: &mut [u8]) -> Answer
    ensures { Checks input.now out.old result out.new }
{
    match laned(input, out) {
        Some(size) if size <= out.len() => Answer::accepted(size),
        Some(size) => Answer::no_room(size),
        None => exact(input, out),
    }
}
