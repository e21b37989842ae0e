// This crate holds theorems (specs/, proofs/), and no code.
#![tactic(auto)]
