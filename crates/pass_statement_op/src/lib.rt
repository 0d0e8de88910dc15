// The statement Op, in its file of the Rust's name.
#![tactic(auto)]

pub mod op;
