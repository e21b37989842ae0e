// The values of an accepted table's wires. This crate is inner: its functions rest on what the checker promised of the table, and
// only crates of this repository call them.
#![tactic(auto)]

pub mod gadget;
pub mod values;
