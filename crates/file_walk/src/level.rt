// An open element.

ghost use Rattle.std.specs.Prelude.{◌≡◌};
ghost use Rattle.file_walk.specs.mirror.Tables.{fresh_in};

use list::lookup::due_after;

// Its row, the place of its `<`, the row of its last child (0: none yet), its lowest required child that has not come (0: none), and
// whether a row of a rule has come for good without the other.
// Kept: `last` and `due` say 0 for none, which is how the cells of document 01's constant tables say it, and `list::lookup` with them
// (`cell`, `child`, `due_after`).
#[derive(Clone, Copy)]
pub struct Level {
    pub row: usize,
    pub place: usize,
    pub last: usize,
    pub due: usize,
    pub odd: bool,
}

// An element that no child has come in yet.
pub fn fresh(rows: &[u16], row: usize, place: usize) -> Level
    ensures { result ≡ fresh_in rows.now row place }
{
    let due = due_after(rows, row, 0);
    Level {
        row,
        place,
        last: 0,
        due,
        odd: false,
    }
}
