// Lookups in the two tables. No row, column, place or table is out of bounds: each has an answer.
ghost use Rattle.std.specs.Prelude.{◌≡◌, ◌<◌, IfSome, unwrap_or};
ghost use Rattle.std.proofs.Math.Seq.{slice};
ghost use Rattle.text.specs.Lists.{same};
ghost use Rattle.list.specs.tables.Table.{cell, name_in, list_of};
ghost use Rattle.list.specs.mirror.Lookup.{due_after, along, child_along};
ghost use Rattle.list.specs.tables.Means.{DueNext, ChildCalled};

use crate::table::{
    CHILD, COLUMNS, DUE_CHILD, DUE_SIBLING, MOST_ROWS, NAME, NAME_END, SIBLING, SPACE, SPACE_END,
    WORD_COUNT,
};
use text::part::{part_of, same};

// A column of a row; 0 in a row above 255, in a column after the last, and past the table's end.
pub fn cell(rows: &[u16], r: usize, column: usize) -> usize
    ensures { result ≡ cell rows.now r column }
{
    if WORD_COUNT < column || MOST_ROWS < r {
        return 0;
    }
    rows.get(COLUMNS * r + column)
        .map_or(0, |x| usize::from(*x))
}

// The lowest required child of `p` above `q`, which is 0 or a child of `p`; 0 where there is none.
// Kept: 0 for none is what the cells of the constant tables hold (document 01), row 0's number, and what is asked with for `q` again.
pub fn due_after(rows: &[u16], p: usize, q: usize) -> usize
    ensures is { result ≡ due_after rows.now p q }
    ensures means { DueNext rows.now p q result }
{
    if q == 0 {
        cell(rows, p, DUE_CHILD)
    } else {
        cell(rows, q, DUE_SIBLING)
    }
}

// The part of the pool that two columns of a row name.
pub(crate) fn named_part<'a>(
    rows: &[u16],
    pool: &'a [u8],
    r: usize,
    start: usize,
    end: usize,
) -> &'a [u8]
    ensures { result.now ≡ slice (cell rows.now r start) (cell rows.now r end) pool.now }
{
    part_of(pool, cell(rows, r, start), cell(rows, r, end))
}

// Whether these bytes are the list's namespace.
pub fn is_space(rows: &[u16], pool: &[u8], s: &[u8]) -> bool
    ensures { result ≡ same (list_of rows.now pool.now).space s.now }
{
    same(named_part(rows, pool, 0, SPACE, SPACE_END), s)
}

// Whether these bytes are row r's name.
pub fn is_name(rows: &[u16], pool: &[u8], r: usize, name: &[u8]) -> bool
    ensures { result ≡ same (name_in rows.now pool.now r) name.now }
{
    same(named_part(rows, pool, r, NAME, NAME_END), name)
}

// The first row of this name, among `from` and the siblings after it. No list has more than 255 of them, and in a table whose siblings go
// in a circle the search ends all the same.
fn first_named(rows: &[u16], pool: &[u8], from: usize, name: &[u8]) -> Option<usize>
    ensures is { unwrap_or result 0 ≡ along rows.now pool.now name.now 255 from }
    ensures row { IfSome result (λ r. 0 < r) }
{
    let mut r = from;
    for _ in 0..MOST_ROWS {
        if r == 0 {
            return None;
        }
        if is_name(rows, pool, r, name) {
            return Some(r);
        }
        r = cell(rows, r, SIBLING);
    }
    None
}

// The child of `p` of this name; 0 where there is none. `last` is the child that came last, 0 at first: the next one mostly is the
// same row again or a sibling after it, so the search begins there.
// Kept: 0 for none, row 0's number, as in the tables' cells: a level holds it as the child that came last until one has come.
pub fn child(rows: &[u16], pool: &[u8], p: usize, last: usize, name: &[u8]) -> usize
    ensures is { result ≡ child_along rows.now pool.now p last name.now }
    ensures means { ChildCalled rows.now pool.now p last name.now result }
{
    first_named(rows, pool, last, name)
        .or_else(|| first_named(rows, pool, cell(rows, p, CHILD), name))
        .unwrap_or(0)
}
