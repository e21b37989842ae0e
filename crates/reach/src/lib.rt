// The stops that probes on an accepted table's wires read. This crate is inner: its functions rest on what the checker promised of
// the table, and only crates of this repository call them.
#![tactic(auto)]

pub mod bytes;
mod listing;
mod reach;
pub mod readings;
