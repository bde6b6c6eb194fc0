// The image of a message that is known to have no violation. No tag is tested again: a name says its row, and the table which row is around. Values are judged once more, by the writer.

ghost use Rattle.std.specs.Prelude.{◌≡◌, false, ◌≤◌};
ghost use Rattle.std.proofs.Math.Seq.{slice};
ghost use Rattle.list.specs.Listing.{child};
ghost use Rattle.list.specs.tables.Table.{cell, words_in, list_of};
ghost use Rattle.list.specs.tables.Numbers.{is_group_in};
ghost use Rattle.file.specs.Instance.{house_kinds};
ghost use Rattle.file_measure.specs.Pass.{Worded, Valued, Shuts};
ghost use Rattle.file_check.specs.Fill.{spot_at, round_in, Comes, Fillable, FilledIn};
ghost use Rattle.list.specs.tables.Columns.{KIND, DTM};
ghost use Rattle.text.specs.Puts.{near};

use file_root::begin::begin;
use image_head::put_head;
use list::kind::is_group;
use list::lookup::{cell, is_name};
use list::table::{CHILD, ENUM, KIND, MOST, PARENT, SIBLING};
use list::word::word_byte;
use text::part::part_of;
use text::span::blanks_end;
use value_kinds::write::write;
use value_shared::place::place;
use xml_skim::{close_end, is_close, tag_at, text_end};
use xml_tags::skim::Tag;

// The place of an ENUM's word in its row's list, as one byte: how many bytes there are, none where it is no word of the list.
fn put_word(
    rows: &[u16],
    pool: &[u8],
    row: usize,
    word: &[u8],
    out: &mut [u8],
    at: usize,
) -> Option<usize>
    ensures { Worded (words_in rows.now pool.now row) word.now out.old at result out.new }
{
    let byte = word_byte(rows, pool, row, word);
    if byte == 0 {
        return None;
    }
    place(out, at, byte);
    Some(1)
}

// The value of a leaf of this row and kind with this raw text, and, if it is an amount, with this currency: how many bytes it has, none
// where the text spells none. No value has 0 bytes.
fn put_value(
    rows: &[u16],
    pool: &[u8],
    kind: usize,
    row: usize,
    t: &[u8],
    ccy: &[u8],
    out: &mut [u8],
    at: usize,
) -> Option<usize>
    requires { (kind ≡ cell rows.now row KIND) × (kind ≤ DTM) }
    ensures { Valued house_kinds rows.now pool.now row ccy.now t.now out.old at result out.new }
{
    if kind == ENUM {
        return put_word(rows, pool, row, t, out, at);
    }
    let most = cell(rows, row, MOST);
    let n = write(kind as u8, most, t, ccy, out, at);
    (n != 0).then_some(n)
}

// The innermost open group, its last child where one has come, and the place after the last tag.
#[derive(Clone, Copy)]
struct Spot {
    row: usize,
    last: Option<usize>,
    at: usize,
}

fn stand(row: usize, last: Option<usize>, at: usize) -> Spot
    ensures { result ≡ spot_at row last at }
{
    Spot { row, last, at }
}

// The child of the group that a cell says, and after the last one (0) the first again.
// Kept: 0 for none, which is how the cells of document 01's constant tables say that no child comes after.
fn around(rows: &[u16], row: usize, r: usize) -> usize
    ensures { result ≡ round_in rows.now row r }
{
    if r == 0 {
        return cell(rows, row, CHILD);
    }
    r
}

// The child of a group that has this name. There is one, so that the search, which begins at the last child, ends at it.
// Kept: a loop by hand, since the rows of a group's children are linked by the tables' cells: the next is known from the one before.
fn row_of(rows: &[u16], pool: &[u8], row: usize, last: Option<usize>, name: &[u8]) -> usize
    requires { Comes rows.now pool.now row last name.now }
    ensures { result ≡ child (list_of rows.now pool.now) row name.now }
{
    let mut r = last.unwrap_or(cell(rows, row, CHILD));
    while !is_name(rows, pool, r, name) {
        r = around(rows, row, cell(rows, r, SIBLING));
    }
    r
}

// The item of a leaf of this row, whose text goes from its tag's end up to less. The place after it, none where the text spells no value.
fn put_leaf(
    rows: &[u16],
    pool: &[u8],
    s: &[u8],
    row: usize,
    tag: Tag,
    less: usize,
    out: &mut [u8],
    at: usize,
) -> Option<usize>
    requires { (row ≤ 255) × (at ≤ near) × (is_group_in (cell rows.now row KIND) ≡ false) }
    ensures { Shuts house_kinds rows.now pool.now row (slice tag.value tag.quote s.now) (slice tag.end less s.now) out.old at result out.new }
{
    place(out, at, row as u8);
    let kind = cell(rows, row, KIND);
    let t = part_of(s, tag.end, less);
    let ccy = part_of(s, tag.value, tag.quote);
    let n = put_value(rows, pool, kind, row, t, ccy, out, at + 1)?;
    Some(at + 1 + n)
}

// Into a buffer that has room for it. A leaf is one turn, from its tag to its closing tag, so that a group is always the innermost.
// Kept: a loop by hand, since where the next tag stands and which group is around only the turn before tells.
pub(crate) fn fill(rows: &[u16], pool: &[u8], s: &[u8], kind: u8, out: &mut [u8])
    requires { Fillable house_kinds rows.now pool.now s.now kind }
    ensures { FilledIn house_kinds (list_of rows.now pool.now) s.now out.old out.new }
{
    let root = begin(rows, pool, s).unwrap();
    let mut here = stand(1, None, root.at);
    let mut at = put_head(out, kind);
    loop {
        let row = here.row;
        let less = blanks_end(s, here.at);
        let name = less + 1;
        if is_close(s, name) {
            if row == 1 {
                place(out, at, 0);
                return;
            }
            here = stand(cell(rows, row, PARENT), Some(row), close_end(s, name));
        } else {
            let tag = tag_at(s, less);
            let r = row_of(rows, pool, row, here.last, part_of(s, name, tag.stop));
            if is_group(cell(rows, r, KIND)) {
                place(out, at, r as u8);
                at += 1;
                here = stand(r, None, tag.end);
            } else {
                let end = text_end(s, tag.end);
                at = put_leaf(rows, pool, s, r, tag, end, out, at).unwrap();
                here = stand(row, Some(r), close_end(s, end + 1));
            }
        }
    }
}
