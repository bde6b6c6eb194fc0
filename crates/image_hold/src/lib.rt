// A reader that holds its run and its place.
#![tactic(auto)]

pub mod held; // held.rt: the run held, its next image, a leaf of the image there
