// Values: which there are, which text spells which, their bytes, the text that is written for each, and all that is proved of them.
#![tactic(auto)]

pub mod judged; // judged.rt: what a text is judged to be
pub mod bounds; // bounds.rt: the bounds that document 01 states
pub mod packed; // packed.rt: where the parts of a stored value stand
pub mod written; // written.rt: where the parts of a written date stand
