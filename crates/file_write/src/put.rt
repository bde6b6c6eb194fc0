// Tags, put behind what is written so far, whether there is room for them or not. A name has at most as many bytes as the pool, and no place is
// beyond 10^14, so that no sum overflows.
ghost use Rattle.std.specs.Prelude.{◌≤◌, length};
ghost use Rattle.list.specs.tables.Table.{name_in};
ghost use Rattle.text.specs.Puts.{farther, farthest};
ghost use Rattle.file_write.specs.mirror.Tags.{start_in, open_in, shut_in, root_in, coin_in, longest_pool};
ghost use Rattle.file_write.specs.mirror.Writer.{Put};
ghost use Rattle.answer.specs.Table.{limit};

use list::lookup::cell;
use list::table::{NAME, NAME_END, SPACE, SPACE_END};
use text::part::part_of;
use text_bytes::number::copy;

// What stands before the namespace of the root, and before an amount's currency.
const XMLNS: [u8; 8] = *b" xmlns=\"";

const COIN: [u8; 6] = *b" Ccy=\"";

// The buffer, and the place after the last byte that was put.
#[derive(Drop)]
pub(crate) struct Writer<'a> {
    pub(crate) out: &'a mut [u8],
    pub(crate) at: usize,
}

impl<'a> Writer<'a> {
    pub(crate) fn put(&mut self, bytes: &[u8])
        requires { (length bytes.now ≤ limit) × (self.old.at ≤ farthest) }
        ensures { Put self.old bytes.now self.new }
    {
        copy(bytes, 0, bytes.len(), self.out, self.at);
        self.at += bytes.len();
    }

    // A row's name.
    fn name(&mut self, rows: &[u16], pool: &[u8], r: usize)
        requires { (length pool.now ≤ longest_pool) × (self.old.at ≤ farthest) }
        ensures { Put self.old (name_in rows.now pool.now r) self.new }
    {
        self.put(part_of(pool, cell(rows, r, NAME), cell(rows, r, NAME_END)));
    }

    // `<` and a row's name.
    pub(crate) fn start(&mut self, rows: &[u16], pool: &[u8], r: usize)
        requires { (length pool.now ≤ longest_pool) × (self.old.at ≤ farther) }
        ensures { Put self.old (start_in rows.now pool.now r) self.new }
    {
        self.put(b"<");
        self.name(rows, pool, r);
    }

    // The opening tag of a row without attributes.
    pub(crate) fn open(&mut self, rows: &[u16], pool: &[u8], r: usize)
        requires { (length pool.now ≤ longest_pool) × (self.old.at ≤ farther) }
        ensures { Put self.old (open_in rows.now pool.now r) self.new }
    {
        self.start(rows, pool, r);
        self.put(b">");
    }

    // The closing tag of a row.
    pub(crate) fn close(&mut self, rows: &[u16], pool: &[u8], r: usize)
        requires { (length pool.now ≤ longest_pool) × (self.old.at ≤ farther) }
        ensures { Put self.old (shut_in rows.now pool.now r) self.new }
    {
        self.put(b"</");
        self.name(rows, pool, r);
        self.put(b">");
    }

    // The root's opening tag, with the list's namespace.
    pub(crate) fn root(&mut self, rows: &[u16], pool: &[u8])
        requires { (length pool.now ≤ longest_pool) × (self.old.at ≤ farther) }
        ensures { Put self.old (root_in rows.now pool.now) self.new }
    {
        self.start(rows, pool, 1);
        self.put(&XMLNS);
        self.put(part_of(pool, cell(rows, 0, SPACE), cell(rows, 0, SPACE_END)));
        self.put(b"\">");
    }

    // The attribute of an amount.
    pub(crate) fn coin(&mut self, currency: &[u8])
        requires { (length currency.now ≤ limit) × (self.old.at ≤ farther) }
        ensures { Put self.old (coin_in currency.now) self.new }
    {
        self.put(&COIN);
        self.put(currency);
        self.put(b"\"");
    }
}
