#![tactic(auto)]

// IP streams from word to word (clause 4.3.4): what comes of calls of the writer and of the reader one after the other. Definitions and theorems, no code.
