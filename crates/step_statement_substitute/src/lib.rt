// Substitute, a step of the linear machine.
#![tactic(auto)]

pub mod substitute;
