// A file measured: by one fast pass that says that it is good and how long its image is, and where that pass says nothing by the exact ones.
#![tactic(auto)]

mod tag; // tag.rt: which of the tags that may come stands at a place
mod turn; // turn.rt: from a tag to the next
mod along; // along.rt: from the root's tag to the end

ghost use Rattle.std.specs.Prelude.{◌≡◌, ℕ, IfSome, Ok};
ghost use Rattle.file_front.specs.Opens.{Opens};
ghost use Rattle.file.specs.Checks.{Finds};
ghost use Rattle.file_measure.specs.Measures.{Measures};
ghost use Rattle.file_nodes.specs.mirror.ByKind.{table_of};
ghost use Rattle.file_lane.specs.Seen.{Seen};

use along::length_from;
use answer::Answer;
use file_front::{Front, front_of};
use file_measure::Good;
use file_nodes::by_byte::nodes_of;
use file_nodes::tables::Table;
use value_levels::table::levels;

// How long the image is of a file whose root's tag ends at a place, where these are the nodes of its list and that is known here. The levels of bytes are
// bound here, once, and lent. Who writes the image has bound the nodes already, so that they are lent too.
pub fn counted(nodes: &Table, s: &[u8], from: usize) -> Option<usize>
    ensures { IfSome result (λ n. (b : ℕ) → Opens s.now b from → nodes.now ≡ table_of b → Seen s.now n b from) }
{
    let levels = levels();
    length_from(&levels, nodes, s, from)
}

// The same of a file whose front is known. It does not ask `counted`: called at two places the pass stays a function of its own, compiled into one it
// would have too few registers for its loop.
fn known(s: &[u8]) -> Option<Good>
    ensures { IfSome result (λ g. Measures s.now (Ok g)) }
{
    let Front { kind, from } = front_of(s)?;
    let nodes = nodes_of(kind);
    let levels = levels();
    let size = length_from(&levels, &nodes, s, from)?;
    Some(Good { kind, size })
}

// What the lane knows is so; where it knows nothing the exact passes decide.
pub fn measured(input: &[u8]) -> Result<Good, Answer>
    ensures { Measures input.now result }
{
    match known(input) {
        Some(good) => Ok(good),
        None => file_measure::measured(input),
    }
}

// The answer alone.
pub fn measure(input: &[u8]) -> Answer
    ensures { Finds input.now result }
{
    match measured(input) {
        Ok(good) => Answer::accepted(good.size),
        Err(refusal) => refusal,
    }
}
