// Writes whole records by kind. A record has less than 8192 bytes, and a place is a usize: hence what is required of the writer's place.
#![tactic(auto)]

pub mod lists;
pub mod records;
