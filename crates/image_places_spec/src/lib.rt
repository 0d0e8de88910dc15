// The crate has no code of its own: its specs say which part of the program stands at a place of the records, for every walk over them.
#![tactic(auto)]
