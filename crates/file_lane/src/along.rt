// From the place after the root's tag to the end of the file, one tag after the other.

ghost use Rattle.std.specs.Prelude.{◌≡◌, ℕ, ◌*◌, ◌≤◌, IfSome, length};
ghost use Rattle.answer.specs.Table.{limit};
ghost use Rattle.file.specs.Instance.{house_kinds};
ghost use Rattle.value_levels.specs.mirror.Levels.{Leveled};
ghost use Rattle.file_nodes.specs.Run.{Node};
ghost use Rattle.file_nodes.specs.mirror.Fields.{width};
ghost use Rattle.file_nodes.specs.mirror.Tables.{node_count};
ghost use Rattle.file_nodes.specs.mirror.Kept.{Tabled};
ghost use Rattle.file_lane.specs.mirror.Leads.{Comes};

use crate::tag::find;
use crate::turn::passed;
use answer::Answer;
use file_chunks::{eight, eight_after};
use file_nodes::fields::{INFO, NEXT, WIDTH};
use text::span::blanks_end;
use value_levels::table::Levels;

// The node after the root's tag; the header and the root's row byte.
const START: usize = 1;

const HEAD: usize = 7;

// How many bytes the image has of a file that goes on so from a place after its root's tag, where that is known here. No sum overflows: each turn goes on in
// a text of at most 1,048,576 bytes, and an item has at most 65,538. Of a table that leads to no node nothing is told.
pub(crate) fn length_from(levels: &Levels, nodes: &[u64], s: &[u8], from: usize) -> Option<usize>
    requires { Leveled levels.now × (length nodes.now ≡ width * node_count) }
    ensures { IfSome result (λ n. (length s.now ≤ limit) × ((at : ℕ → Node) → Tabled nodes.now at → Comes house_kinds at s.now 1 from n)) }
{
    if Answer::LIMIT < s.len() {
        return None;
    }
    let mut n = START;
    let mut at = from;
    let mut total = HEAD;
    loop {
        let less = blanks_end(s, at);
        if s.len() <= less {
            return None;
        }
        let found = find(nodes, n, eight(s, less), eight_after(s, less))?;
        let past = passed(levels, nodes, found, s, less)?;
        total += past.size;
        at = past.at;
        n = (nodes[WIDTH * found + INFO] / NEXT % 256) as usize;
        if n == 0 {
            return Some(total);
        }
    }
}
