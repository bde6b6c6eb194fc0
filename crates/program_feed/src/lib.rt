// The feed of the bench: a case's head, the case that a feed begins with.
#![tactic(auto)]

pub mod case; // case.rt: what a head asks for
