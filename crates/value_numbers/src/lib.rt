// NUM, BOOL and ENUM.
#![tactic(auto)]

pub mod from_text; // from_text.rt: numbers, and yes or no
pub mod from_bytes; // from_bytes.rt: a word's place, yes or no, numbers
pub mod to_bytes; // to_bytes.rt: their bytes
pub mod to_text; // to_text.rt: words, and yes or no
