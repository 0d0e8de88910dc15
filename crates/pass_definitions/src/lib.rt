// The definitions of a program: one by one, and one after the other.
#![tactic(auto)]

pub mod def;
pub mod program;
