// The element of a leaf: its opening tag, with the currency of an amount, the text of its value, its closing tag.
ghost use Rattle.std.specs.Prelude.{◌≡◌, ◌++◌, ◌≤◌, length};
ghost use Rattle.text.specs.Bytes.{ascii};
ghost use Rattle.text.specs.Puts.{far};
ghost use Rattle.file_write.specs.mirror.Tags.{start_in, longest_pool};
ghost use Rattle.file_write.specs.mirror.Emit.{coin_at, LeafPut};
ghost use Rattle.file_write.specs.mirror.Writer.{Put};
ghost use Rattle.answer.specs.Table.{limit};

use crate::put::Writer;
use list::lookup::cell;
use list::table::{AMT, KIND};
use text::part::part_of;
use value::packed::CURRENCY_SIZE;
use value_kinds_stored::put::put;

// The opening tag; an amount begins with the three bytes of its currency.
fn open_leaf(w: &mut Writer<'_>, rows: &[u16], pool: &[u8], run: &[u8], x: usize, i: usize)
    requires { (length pool.now ≤ longest_pool) × (i ≤ limit) × (w.old.at ≤ far) }
    ensures { Put w.old (start_in rows.now pool.now x ++ (coin_at rows.now run.now x i ++ ascii ">")) w.new }
{
    if cell(rows, x, KIND) != AMT {
        w.open(rows, pool, x);
        return;
    }
    w.start(rows, pool, x);
    w.coin(part_of(run, i, i + CURRENCY_SIZE));
    w.put(b">");
}

// Of row x, whose value stands in the run from i on.
pub(crate) fn put_leaf(
    w: &mut Writer<'_>,
    rows: &[u16],
    pool: &[u8],
    run: &[u8],
    x: usize,
    i: usize,
)
    requires { (length pool.now ≤ longest_pool) × (i ≤ limit) × (w.old.at ≤ far) }
    ensures { LeafPut rows.now pool.now run.now x i w.old.out.now w.old.at w.new.at w.new.out.now × (w.new.out.ghost_name ≡ w.old.out.ghost_name) }
{
    open_leaf(w, rows, pool, run, x, i);
    let text = put(rows, pool, x, run, i, w.out, w.at);
    w.at += text;
    w.close(rows, pool, x);
}
