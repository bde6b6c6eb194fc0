// The image of a file that the lane knows to be good, written by the lane's nodes at the start of a lent buffer.
#![tactic(auto)]

mod puts; // puts.rt: the value of a leaf
mod fill; // fill.rt: the pass that writes

ghost use Rattle.file_fill.specs.Laned.{Laned};

use file_front::{Front, front_of};
use file_lane::counted;
use file_nodes::by_byte::nodes_of;
use fill::fill;

// The length of a file's image, where the lane knows it, and then the image at the start of a buffer that has room for it; else the buffer stays as it was.
// The nodes are bound here, once, and lent to the pass that counts and to the one that writes.
pub fn laned(s: &[u8], out: &mut [u8]) -> Option<usize>
    ensures { Laned s.now out.old result out.new }
{
    let Front { kind, from } = front_of(s)?;
    let nodes = nodes_of(kind);
    let size = counted(&nodes, s, from)?;
    if size <= out.len() {
        fill(&nodes, s, from, kind as u8, out);
    }
    Some(size)
}
