// Where the parts of a program stand among its records: the table of ends, and the searches that go by it.
#![tactic(auto)]

pub mod ends;
pub mod search;
pub mod stepper;
