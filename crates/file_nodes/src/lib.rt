// The lists of files as nodes: of each tag that may come, its bytes, the node after it, and the node of what else may come in its place.
#![tactic(auto)]

pub mod fields; // fields.rt: a node in its table
pub mod tables; // tables.rt: the nodes of each list as numbers
pub mod by_byte; // by_byte.rt: those of a list, by its kind byte
