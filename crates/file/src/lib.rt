#![tactic(auto)]

// Files: which are good, their content, what check may answer, and what follows from that.
