// Characters: UTF-8, and the characters and entities that raw text is made of.
#![tactic(auto)]

pub mod utf8; // utf8.rt: characters, and the longest UTF-8
pub mod piece; // piece.rt: characters and entities of text
