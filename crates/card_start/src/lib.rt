// What the commands share: what one that ran comes to, moves by the transition table, and start checks.
#![tactic(auto)]

pub mod checks;
pub mod done;
pub mod moves;
