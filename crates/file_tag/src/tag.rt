// The tests of a tag, in the paper's order: at its opening 5, 6, 7, 9, at a group's end 11, 8, 13. Each answers with its line of the table.

ghost use Rattle.std.specs.Prelude.{◌≡◌};
ghost use Rattle.file_walk.specs.mirror.Tables.{passed_in, again_in, opening_in, broken_in, group_end_in};

use answer::Answer;
use file_walk::level::Level;
use list::lookup::cell;
use list::table::{CHOICE, COUNT, KIND, OPTIONAL, PAIR};

// Whether a later sibling of row r has come; a choice has no order.
#[tactic(auto, unfolding(file_walk::specs::mirror::Tables::passed_in))]
fn passed(rows: &[u16], lv: Level, r: usize) -> bool
    ensures { result ≡ passed_in rows.now lv r }
{
    cell(rows, lv.row, KIND) != CHOICE && r < lv.last
}

// Whether row r is over its count, or second in a choice, when no later sibling has come.
#[tactic(auto, unfolding(file_walk::specs::mirror::Tables::again_in))]
fn again(rows: &[u16], lv: Level, r: usize) -> bool
    ensures { result ≡ again_in rows.now lv r }
{
    if cell(rows, lv.row, KIND) == CHOICE {
        return lv.last != 0;
    }
    cell(rows, r, COUNT) <= OPTIONAL && lv.last == r
}

// An opening tag below the root, of row r (0: no child of its parent), with its `<` at a place; `own` says whether its attributes are its type's.
#[tactic(auto, unfolding(file_walk::specs::mirror::Tables::opening_in))]
pub fn opening(rows: &[u16], lv: Level, r: usize, own: bool, place: usize) -> Result<(), Answer>
    ensures { result ≡ opening_in rows.now lv r own place }
{
    if r == 0 {
        return Err(Answer::not_a_child(lv.row, place));
    }
    if passed(rows, lv, r) {
        return Err(Answer::out_of_order(r, place));
    }
    if again(rows, lv, r) {
        return Err(Answer::too_many(r, place));
    }
    if !own {
        return Err(Answer::wrong_attributes(r, place));
    }
    Ok(())
}

// Whether a rule is broken at a group's end: for good already, or by a first row that came last.
#[tactic(auto, unfolding(file_walk::specs::mirror::Tables::broken_in))]
fn broken(rows: &[u16], lv: Level) -> bool
    ensures { result ≡ broken_in rows.now lv }
{
    lv.odd || cell(rows, lv.last, PAIR) != 0
}

// The end of a group.
#[tactic(auto, unfolding(file_walk::specs::mirror::Tables::group_end_in))]
pub fn group_end(rows: &[u16], lv: Level) -> Result<(), Answer>
    ensures { result ≡ group_end_in rows.now lv }
{
    if lv.last == 0 {
        return Err(Answer::empty(lv.row, lv.place));
    }
    if 0 < lv.due {
        return Err(Answer::absent(lv.due, lv.place));
    }
    if broken(rows, lv) {
        return Err(Answer::rule_broken(lv.row, lv.place));
    }
    Ok(())
}
