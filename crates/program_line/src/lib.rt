// What the programs write: bytes in hexadecimal, the line of an answer.
#![tactic(auto)]

pub mod hex; // hex.rt: bytes, two digits each
pub mod answer_line; // answer_line.rt: an answer in numbers
