// Linearization over the records of an image, with the Rust's names. The statements are in crates of their own.
#![tactic(auto)]

pub mod source;
pub mod walk;
