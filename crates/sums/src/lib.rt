#![tactic(auto)]

// Bitwise sums of words and their codewords (clauses 4.4.2 and 4.4.3): definitions and theorems, no code.
