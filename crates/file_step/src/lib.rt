// One step of the walk: a message against any well-formed list, lent as tables, in document order.
#![tactic(auto)]

pub mod step; // step.rt: one step, over a text and the tag after it
