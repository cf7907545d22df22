// What the pipes of a signalling word or of a sheet own, and what is said of a word or of a sheet that was judged.
#![tactic(auto)]

pub mod answer;
pub mod owned;
