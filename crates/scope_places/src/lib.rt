// Scopes of at most 64 IDs in a lent array, masks over their places, and what is found at a use and at a binder.
#![tactic(auto)]

pub mod mask;
pub mod scope;
pub mod scoping;
