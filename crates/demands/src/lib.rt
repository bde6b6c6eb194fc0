#![tactic(auto)]

// The three demands on the unit, each as one theorem.
