// The closing tags of the open groups, from the innermost one up to a group that stays open. The list says which group is around which.
ghost use Rattle.list.specs.tables.Table.{list_of};
ghost use Rattle.file_letter.specs.mirror.Tell.{closes, rungs};
ghost use Rattle.file_write.specs.mirror.Tags.{Opened};
ghost use Rattle.file_write.specs.mirror.Writer.{Put};

use crate::put::Writer;
use list::lookup::cell;
use list::table::PARENT;

// From the group `from` up to p, without p's own; p is 0 at the end, when the root's is the last.
// Kept: a loop by a row's number: the list says which group is around which, and no slice holds the open ones.
pub(crate) fn close_to(w: &mut Writer<'_>, rows: &[u16], pool: &[u8], from: usize, p: usize)
    requires { Opened rows.now pool.now from w.old.at }
    ensures { Put w.old (closes (list_of rows.now pool.now) rungs from p) w.new }
{
    let mut g = from;
    while g != p {
        if g == 0 {
            return;
        }
        w.close(rows, pool, g);
        g = cell(rows, g, PARENT);
    }
}
