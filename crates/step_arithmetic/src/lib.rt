// What Op and IfC compute on 64-bit integers: sums, differences and products that wrap, division with no value at its edges, comparisons.
// `a` and `b` are the operands: two integers, of which nothing is said together but what comes out.
#![tactic(auto)]

pub mod comparison;
pub mod division;
pub mod operation;
pub mod wrapping;
