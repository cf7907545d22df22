// What writing and reading payload words come to together, and what a damaged word shows (clause 4.3): definitions and theorems, no code.
#![tactic(auto)]
