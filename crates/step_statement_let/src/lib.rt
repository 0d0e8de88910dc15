// Let, a step of either machine.
#![tactic(auto)]

pub mod let_;
