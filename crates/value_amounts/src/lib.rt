// AMT: from its text, from its bytes, to bytes; its text is written by `text`.
#![tactic(auto)]

pub mod from_text; // from_text.rt: one pass over the digits
pub mod from_bytes; // from_bytes.rt: letters, scale, coefficient
pub mod to_bytes; // to_bytes.rt: its bytes
