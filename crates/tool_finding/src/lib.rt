// Where a refused image is wrong: the record and the variable that a refusal is about.
#![tactic(auto)]

pub mod due;
pub mod finding;
pub mod place;
pub mod scan;
pub mod scope;
pub mod walk;
