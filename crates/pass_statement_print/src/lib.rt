// The statement PrintI64, in its file of the Rust's name.
#![tactic(auto)]

pub mod print;
