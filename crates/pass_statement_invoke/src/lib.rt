// The statement Invoke, in its file of the Rust's name.
#![tactic(auto)]

pub mod invoke;
