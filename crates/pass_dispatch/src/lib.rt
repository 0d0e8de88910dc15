// The statement, clause or definition at hand, by its kind.
#![tactic(auto)]

pub mod step;
