// The statement Exit, in its file of the Rust's name.
#![tactic(auto)]

pub mod exit;
