// PrintI64, a step of either machine.
#![tactic(auto)]

pub mod print;
