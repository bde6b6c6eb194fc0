// A stored value of any type, chosen by the number of its kind.
#![tactic(auto)]

pub mod end; // end.rt: where it ends
pub mod put; // put.rt: the text that is written for it
