// What a record uses and binds.
#![tactic(auto)]

pub mod nodes;
