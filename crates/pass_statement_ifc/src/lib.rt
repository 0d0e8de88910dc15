// The statement IfC, in its file of the Rust's name.
#![tactic(auto)]

pub mod ifc;
