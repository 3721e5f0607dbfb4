// Command frames, and what they share with the 48-bit responses.
#![tactic(auto)]

pub mod command;
pub mod frame;
