// Bytes as they are, in a lent buffer.
#![tactic(auto)]

pub mod bytes;
