#![tactic(auto)]

// What a signalling word describes (clause 4.10): definitions and theorems, no code.
