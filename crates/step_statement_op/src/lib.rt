// Op, a step of either machine.
#![tactic(auto)]

pub mod op;
