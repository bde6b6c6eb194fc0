// REF and TXT, from their raw text.
#![tactic(auto)]

pub mod from_text; // from_text.rt: their characters, looked up; one loop for both
