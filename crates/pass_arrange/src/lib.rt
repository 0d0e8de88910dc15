// The Substitute where the context is not right.
#![tactic(auto)]

pub mod arrange;
