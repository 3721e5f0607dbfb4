// What the program of the host reads: the card's answers, and the limit.
#![tactic(auto)]

pub mod answer;
pub mod limit;
