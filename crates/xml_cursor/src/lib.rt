// The cursor over a text that is known to be house XML: a text and the tag after it, an attribute, where the root begins.
#![tactic(auto)]

pub mod attribute; // attribute.rt: one attribute, and how many there are
pub mod token; // token.rt: a text and the tag after it; where the root begins
