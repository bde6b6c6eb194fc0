// Which of the tags that may come stands at a place: sixteen bytes, compared under the masks of one node after the other.

ghost use Rattle.std.specs.Prelude.{◌≡◌, ◌+◌, ◌*◌, ◌≤◌, ◌<◌, IfSome, length};
ghost use Rattle.value.specs.Judged.{Exactly};
ghost use Rattle.file_nodes.specs.mirror.Fields.{width, masked_long};
ghost use Rattle.file_nodes.specs.mirror.Tables.{node_count};
ghost use Rattle.file_nodes.specs.mirror.Kept.{In};
ghost use Rattle.file_lane.specs.mirror.Turn.{Matches, Sought};

use file_chunks::equal_under;
use file_nodes::fields::{INFO, OTHER, SECOND_MASK, WIDTH};
use file_nodes::tables::NODES;

// Whether two chunks are what stands at place k of the table.
pub(crate) fn is_tag(nodes: &[u64], k: usize, x: u64, y: u64) -> bool
    requires { k + masked_long ≤ length nodes.now }
    ensures { Exactly result (Matches nodes.now k x y) }
{
    equal_under(
        x,
        nodes[k + 1],
        nodes[k],
        y,
        nodes[k + SECOND_MASK],
        nodes[k + 2],
    )
}

// The node whose tag two chunks begin with, from a node on to what else may come. What else may come is a later node: of a table that says another, nothing
// is told.
pub(crate) fn find(nodes: &[u64], from: usize, x: u64, y: u64) -> Option<usize>
    requires { (length nodes.now ≡ width * node_count) × (0 < from) }
    ensures { IfSome result (λ n. Sought nodes.now x y from n × In nodes.now n) }
{
    let mut n = from;
    while n < NODES {
        let k = WIDTH * n;
        if is_tag(nodes, k, x, y) {
            return Some(n);
        }
        let next = (nodes[k + INFO] / OTHER % 256) as usize;
        if next <= n {
            return None;
        }
        n = next;
    }
    None
}
