// The crate has no code of its own: its proofs step one program through both machines, by the definitions alone.
#![tactic(auto)]
