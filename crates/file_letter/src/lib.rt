#![tactic(auto)]

// The statement file that is written for a content, and what writing it answers (theory only).
