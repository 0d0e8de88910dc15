// The parts of AxCut's syntax below the statements: names, types, typing contexts and sets of variables, and the codes of Op and IfC.
#![tactic(auto)]

pub mod codes;
pub mod context;
pub mod ifc;
pub mod names;
pub mod op;
pub mod sets;
pub mod types;
