// The crate has no code of its own: its specs say what one statement's record adds to the output of linearization, for the walk that writes it.
#![tactic(auto)]
