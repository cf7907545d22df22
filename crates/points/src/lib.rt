#![tactic(auto)]

// The ten cases of document 01 that are marked P, as one list under one claim: definitions and a theorem, no code.
