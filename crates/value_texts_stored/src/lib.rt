// REF and TXT, from their bytes.
#![tactic(auto)]

pub mod from_bytes; // from_bytes.rt: the bytes of their characters
