// The text of a stored DATE or DTM.
#![tactic(auto)]

pub mod to_text; // to_text.rt: made in a buffer that has room for the longest
