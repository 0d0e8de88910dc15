// Writes the records of an image one after the other, and what stands before them: their lengths are noted on the way, and the header and
// the directory are written at the end.
#![tactic(auto)]

pub mod directory;
pub mod output;
