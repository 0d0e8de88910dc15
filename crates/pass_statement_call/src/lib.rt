// The statement Call, in its file of the Rust's name.
#![tactic(auto)]

pub mod call;
