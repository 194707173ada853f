// This crate has no code: what follows from the contracts of the two entries that take events stands in specs, and its proofs in proofs.

#![tactic(auto)]
