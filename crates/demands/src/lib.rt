// The demands of the tender, as theorems over the calls of the other crates: see proofs/.
#![tactic(auto)]
