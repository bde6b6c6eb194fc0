// Which row may come directly after which. The row of the last item is all that is remembered: siblings come in row order and the
// open groups are the last item's ancestors, so that each level's last child so far is the ancestor on it.
#![tactic(auto)]

ghost use Rattle.std.specs.Prelude.{◌≡◌};
ghost use Rattle.image.specs.mirror.Step.{is_leaf, again, owed, before, mated, in_order, beside, inside, climbs, follows, rests, ended};

use list::kind::is_group;
use list::lookup::cell;
use list::table::{
    ANY, COUNT, DUE_CHILD, DUE_SIBLING, KIND, MATE, MOST_LEVELS, PAIR, PARENT, SIZE, SOME,
};

// A leaf's row, by its kind.
pub fn is_leaf(rows: &[u16], r: usize) -> bool
    ensures { result ≡ is_leaf rows.now r }
{
    !is_group(cell(rows, r, KIND))
}

// It may come more than once.
fn again(rows: &[u16], r: usize) -> bool
    ensures { result ≡ again rows.now r }
{
    let count = cell(rows, r, COUNT);
    if count < SOME {
        return false;
    }
    count <= ANY
}

// The lowest sibling due after q, 0 where none is. A rule's two rows are neighbours, so its second row comes before any required one.
// Kept: 0 for none, here and in `before`, `mated` and `inside`: these are cells, and document 01 has the list as constant tables of numbers.
fn owed(rows: &[u16], q: usize) -> usize
    ensures { result ≡ owed rows.now q }
{
    let pair = cell(rows, q, PAIR);
    if pair == 0 {
        return cell(rows, q, DUE_SIBLING);
    }
    pair
}

// x does not pass over the row that is due.
fn before(due: usize, x: usize) -> bool
    ensures { result ≡ before due x }
{
    if due == 0 {
        return true;
    }
    x <= due
}

// Where x is the second row of a rule, q is the first.
fn mated(rows: &[u16], q: usize, x: usize) -> bool
    ensures { result ≡ mated rows.now q x }
{
    let mate = cell(rows, x, MATE);
    if mate == 0 {
        return true;
    }
    mate == q
}

fn in_order(rows: &[u16], q: usize, x: usize) -> bool
    ensures { result ≡ in_order rows.now q x }
{
    if q == x {
        return again(rows, x);
    }
    q < x
}

// Whether x may stand after q, the last child so far of their parent p.
fn beside(rows: &[u16], p: usize, q: usize, x: usize) -> bool
    ensures { result ≡ beside rows.now p q x }
{
    if cell(rows, p, KIND) == 1 {
        return false;
    }
    if in_order(rows, q, x) {
        if before(owed(rows, q), x) {
            return mated(rows, q, x);
        }
    }
    false
}

// Whether x may stand first in q.
fn inside(rows: &[u16], q: usize, x: usize) -> bool
    ensures { result ≡ inside rows.now q x }
{
    if cell(rows, x, PARENT) != q {
        return false;
    }
    if before(cell(rows, q, DUE_CHILD), x) {
        return cell(rows, x, MATE) == 0;
    }
    false
}

// Whether x may come when q is over: beside q, or, where nothing is due after q, when its parent is over.
fn climbs(rows: &[u16], from: usize, x: usize) -> bool
    ensures { result ≡ climbs rows.now 16 from x }
{
    let parent = cell(rows, x, PARENT);
    let mut q = from;
    for _ in 0..MOST_LEVELS {
        if q <= 1 {
            return false;
        }
        let up = cell(rows, q, PARENT);
        if up == parent {
            return beside(rows, parent, q, x);
        }
        if owed(rows, q) != 0 {
            return false;
        }
        q = up;
    }
    false
}

// Whether x may come directly after q.
pub fn follows(rows: &[u16], q: usize, x: usize) -> bool
    ensures { result ≡ follows rows.now q x }
{
    if x == 0 {
        return false;
    }
    if cell(rows, 0, SIZE) < x {
        return false;
    }
    if is_leaf(rows, q) {
        return climbs(rows, q, x);
    }
    inside(rows, q, x)
}

// Whether nothing is due after q and each row above it.
fn rests(rows: &[u16], from: usize) -> bool
    ensures { result ≡ rests rows.now 16 from }
{
    let mut q = from;
    for _ in 0..MOST_LEVELS {
        if q <= 1 {
            return true;
        }
        if owed(rows, q) != 0 {
            return false;
        }
        q = cell(rows, q, PARENT);
    }
    false
}

// Whether an image may end after q.
pub fn ended(rows: &[u16], q: usize) -> bool
    ensures { result ≡ ended rows.now q }
{
    if is_leaf(rows, q) {
        return rests(rows, q);
    }
    false
}
