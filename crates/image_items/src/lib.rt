// The items of the image that a run begins with, one at a time.
#![tactic(auto)]

pub mod item; // item.rt: what stands at a place
