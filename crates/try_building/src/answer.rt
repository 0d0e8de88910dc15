// What a call of the library answers: its number, its length, of a stepper the event bytes; and its max_id, of a stepper the steps made.
// (One form for all functions, as the input of try_vectors has it.)
use std::fmt;

#[derive(Clone, Copy, PartialEq, Eq)]
pub struct Answer {
    pub number: u32,
    pub length: usize,
    pub max_id: u64,
}

impl fmt::Display for Answer {
    fn fmt<W: fmt::Write>(&self, f: &mut fmt::Formatter<W>) -> fmt::Result {
        write!(f, "{} {} {}", self.number, self.length, self.max_id)
    }
}
