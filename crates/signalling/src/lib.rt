#![tactic(auto)]

// Signalling words (clause 4.10), both ways together: what to_sheet reads and to_word writes comes back. Theorems, no code.
