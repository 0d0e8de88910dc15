// One entry of the context at work, and masks over the places in scope.
#![tactic(auto)]

pub mod entries;
pub mod masks;
