// The walk of the questions 7 to 10, and the free variables of every record.
#![tactic(auto)]

pub mod walk;
