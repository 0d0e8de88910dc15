// The statement Literal, in its file of the Rust's name.
#![tactic(auto)]

pub mod literal;
