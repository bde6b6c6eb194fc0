// DATE and DTM, from their text.
#![tactic(auto)]

pub mod day; // day.rt: days
pub mod moment; // moment.rt: the parts after the day
