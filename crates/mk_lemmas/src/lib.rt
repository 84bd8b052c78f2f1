//! Lemmas in words of the standard library, for the proofs of all crates above. It has no code.
#![tactic(auto)]
