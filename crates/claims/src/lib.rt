// This crate has no code: what follows from the contracts of the entries stands in specs, and its proofs in proofs.

#![tactic(auto)]
