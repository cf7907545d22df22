#![tactic(auto)]

// The order in which encoder 2 reads a block (clause 4.4.4): definitions and theorems, no code.
