// One step of a machine on a store: what a rule is given and what it has done. The rules are in the crates above.
#![tactic(auto)]
