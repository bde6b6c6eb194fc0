// Images of the lists that stored ones keep to: what a reader and a picker answer, and how a run begins.
#![tactic(auto)]

pub mod front; // front.rt: how a run begins
