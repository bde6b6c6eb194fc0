// The walk over a message, against any well-formed list, in document order: what it is, and what its steps say to each other. The steps
// themselves are code of the crates above: `file_root`, `file_tag`, `file_step`.
#![tactic(auto)]

pub mod level; // level.rt: an open element
pub mod hints; // hints.rt: what stands among the root's attributes
pub mod step; // step.rt: where the walk stands, and what a step meets
