// The crate has no code of its own: its specs say what a call of `axcut_linearize` answers, its proofs what the bytes that it writes are.
#![tactic(auto)]
