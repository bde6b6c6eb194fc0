// What writing answers for an item that no file may say any more, and for the file's length.
#![tactic(auto)]

ghost use Rattle.std.specs.Prelude.{◌≡◌};
ghost use Rattle.file_answers.specs.Answers.{gone_by, refused_by, sized_by};

use answer::Answer;
use list::lookup::cell;
use list::table::{CELLS, NAME, NAME_END};
use text::part::part_len;

// A row without a name: no file may have it any more.
pub fn is_gone(rows: &[u16], pool: &[u8], row: usize) -> bool
    ensures { result ≡ gone_by rows.now pool.now row }
{
    part_len(pool, cell(rows, row, NAME), cell(rows, row, NAME_END)) == 0
}

// What is answered for the item of that row at that place, the first that no file may say.
pub fn refusal(rows: &[u16; CELLS], pool: &[u8], row: usize, place: usize) -> Answer
    ensures { result ≡ refused_by rows.now pool.now row place }
{
    if is_gone(rows, pool, row) {
        return Answer::retired(row, place);
    }
    Answer::too_fine(row, place)
}

// What is answered for a file of n bytes, and a buffer of so much room.
pub fn sized(n: usize, room: usize) -> Answer
    ensures { result ≡ sized_by n room }
{
    if Answer::LIMIT < n {
        return Answer::too_large(n);
    }
    if room < n {
        return Answer::no_room(n);
    }
    Answer::accepted(n)
}
