// Create, a step of either machine.
#![tactic(auto)]

pub mod create;
