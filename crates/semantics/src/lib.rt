// This crate holds definitions (specs/) and their laws (proofs/), and no code.
#![tactic(auto)]
