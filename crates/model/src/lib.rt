// The crate has no code of its own: its specs define the program tree, the pass and the two machines, and its proofs are about those.
#![tactic(auto)]
