// An accepted table's wires as sums of variables, prepared once, so that many sharings and tapes are evaluated without walking over
// the table again. This crate is inner: only crates of this repository call it.
//
// Variables 0 to 16 are the caller's, 17 is 1, 18 to 49 are the products in outputs of ANDs, in their order, and 50 to 57 those in
// the wires inside ANDs that are read, by their place on the list. The variables from 18 on have two words each on the list of terms:
// the sums that are multiplied.
#![tactic(auto)]

pub mod evaluate;
pub mod expand;
mod gadget;
mod offsets;
