// Annotation: the free variables of what follows a record.
#![tactic(auto)]

pub mod annotate;
pub mod walk;
