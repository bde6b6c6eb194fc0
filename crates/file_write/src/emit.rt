// The file of an image, item by item. The innermost open group is all that is kept: closing tags come late, when the next item says how far
// up it goes, and the list says which group is around which.
ghost use Rattle.std.specs.Prelude.{◌≡◌, ◌+◌, ◌≤◌, drop};
ghost use Rattle.value.specs.mirror.Ends.{width};
ghost use Rattle.file_write.specs.mirror.Emit.{Held, Emits};
ghost use Rattle.answer.specs.Table.{limit};

use crate::close::close_to;
use crate::leaf::put_leaf;
use crate::put::Writer;
use list::kind::is_group;
use list::lookup::cell;
use list::table::{AMT, BOOL, CCY, CELLS, DATE, DTM, ENUM, KIND, NUM, PARENT, REF};
use text_bytes::number::get16;
use value::packed::{AMOUNT_SIZE, DATE_SIZE, MOMENT_SIZE, NUMBER_SIZE};

// The place after a value of a kind that stands in the run from i on. It was judged when the run was read, so that its length is all that is
// asked.
pub(crate) fn after(kind: usize, run: &[u8], i: usize) -> usize
    requires { i ≤ limit }
    ensures { result ≡ i + width kind (drop i run.now) }
{
    match kind {
        REF..=CCY => i + 2 + usize::from(get16(run, i)),
        ENUM..=BOOL => i + 1,
        NUM => i + NUMBER_SIZE,
        AMT => i + AMOUNT_SIZE,
        DATE => i + DATE_SIZE,
        DTM => i + MOMENT_SIZE,
        _ => i,
    }
}

// From the root's row byte on, into a buffer that may be too short: the file's length. No sum overflows: an item tells at most 3,000,000
// bytes, and a run has at most 1,048,576.
// Kept: a loop by a place: the next item stands where this one ends.
pub(crate) fn emit(
    rows: &[u16; CELLS],
    pool: &[u8],
    run: &[u8],
    from: usize,
    out: &mut [u8],
) -> usize
    requires { Held rows.now pool.now run.now from }
    ensures { Emits rows.now pool.now run.now from out.old result out.new }
{
    let mut w = Writer { out, at: 0 };
    let mut g = 1;
    let mut i = from + 1;
    w.root(rows, pool);
    loop {
        let x = usize::from(run[i]);
        if x == 0 {
            close_to(&mut w, rows, pool, g, 0);
            return w.at;
        }
        let around = cell(rows, x, PARENT);
        close_to(&mut w, rows, pool, g, around);
        let kind = cell(rows, x, KIND);
        if is_group(kind) {
            w.open(rows, pool, x);
            g = x;
            i += 1;
        } else {
            put_leaf(&mut w, rows, pool, run, x, i + 1);
            g = around;
            i = after(kind, run, i + 1);
        }
    }
}
