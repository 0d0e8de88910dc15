// clause.rs: what stands before a body.
#![tactic(auto)]

pub mod clause;
