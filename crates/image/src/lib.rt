#![tactic(auto)]

// Images: what they are, what a reader and a picker answer, over any list of rows; and what is proved of it.
