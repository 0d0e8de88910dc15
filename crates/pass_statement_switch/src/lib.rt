// The statement Switch, in its file of the Rust's name: what comes before its clauses, and what comes once they are done.
#![tactic(auto)]

pub mod switch;
