// An open element after a child more.

ghost use Rattle.std.specs.Prelude.{◌≡◌};
ghost use Rattle.file_walk.specs.mirror.Machine.{misses};
ghost use Rattle.file_walk.specs.mirror.Tables.{advance_in, next_in, odd_in};

use file_walk::level::Level;
use list::lookup::{cell, due_after};
use list::table::{MATE, PAIR};

// Whether the other row of a rule, where there is one, is not q.
fn misses(other: usize, q: usize) -> bool
    ensures { result ≡ misses other q }
{
    other != 0 && other != q
}

// What is due after a child.
fn next(rows: &[u16], row: usize, due: usize, child: usize) -> usize
    ensures { result ≡ next_in rows.now row due child }
{
    if child == due {
        return due_after(rows, row, child);
    }
    due
}

// The flag after a child: when a row comes for the first time, the first row of its rule must be the child before it, and the second
// row of the rule of the child before must be it.
fn odd_after(rows: &[u16], odd: bool, last: usize, child: usize) -> bool
    ensures { result ≡ odd_in rows.now odd last child }
{
    odd || child != last
        && (misses(cell(rows, child, MATE), last) || misses(cell(rows, last, PAIR), child))
}

// A child has come.
pub fn advance(rows: &[u16], lv: Level, child: usize) -> Level
    ensures { result ≡ advance_in rows.now lv child }
{
    Level {
        last: child,
        due: next(rows, lv.row, lv.due, child),
        odd: odd_after(rows, lv.odd, lv.last, child),
        ..lv
    }
}
