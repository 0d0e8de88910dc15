// The command line of the command: what is asked for, of which files, and what is wrong with it.
#![tactic(auto)]

pub mod command;
pub mod fault;
pub mod line;
pub mod machine;
pub mod parser;
pub mod request;
pub mod values;
pub mod word;
