// The questions that are asked of each record alone: question 6, and the counts of question 7.
#![tactic(auto)]

pub mod flat;
