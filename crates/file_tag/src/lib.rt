// A tag below the root against any well-formed list, lent as tables: its tests in the paper's order, and what the element around it knows after
// it.
#![tactic(auto)]

pub mod level; // level.rt: an open element after a child more
pub mod tag; // tag.rt: the tests at a tag's opening and at a group's end
pub mod attributes; // attributes.rt: the attributes of a tag below the root
