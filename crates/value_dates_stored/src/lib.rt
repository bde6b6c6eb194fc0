// DATE and DTM, stored: from their bytes, and to bytes.
#![tactic(auto)]

pub mod from_bytes; // from_bytes.rt: which bytes are a day, a moment
pub mod to_bytes; // to_bytes.rt: their bytes
