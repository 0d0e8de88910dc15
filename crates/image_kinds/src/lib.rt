// The records of an image: their kinds, and question 4 of one record.
#![tactic(auto)]

pub mod codes;
pub mod form;
pub mod kinds;
