// The cursor: it goes once over a text that is known to be house XML, from tag to tag, and answers with places only. What its answers are,
// and that they tell the message; its code is that of the crates above, `xml_marks`, `xml_cursor` and `xml_skim`. On other bytes it answers
// something too: no place past the end, and each answer further on than the last.
#![tactic(auto)]

pub mod attribute; // attribute.rt: one attribute, and how many there are
pub mod token; // token.rt: a text and the tag after it
pub mod skim; // skim.rt: a tag of a message that is known to be good
