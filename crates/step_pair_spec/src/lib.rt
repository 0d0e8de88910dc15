// The crate has no code of its own: its specs say what the two steppers have to do with one another, before and after linearization.
#![tactic(auto)]
