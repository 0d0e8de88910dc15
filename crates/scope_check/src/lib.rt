// The scope check: questions 6 to 10; and the free variables of every record, as masks over the places in scope.
#![tactic(auto)]

pub mod check;
pub mod definitions;
