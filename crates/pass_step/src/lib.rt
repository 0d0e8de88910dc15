// What every step of linearization is made of: what it leads to, fresh names, a place for what is written later.
#![tactic(auto)]

pub mod fresh;
pub mod reserve;
pub mod source;
pub mod working;
