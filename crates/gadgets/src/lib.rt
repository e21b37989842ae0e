// Where the wires of AND and REF stand, and what AND's gates give. With it come the laws of the walk over an accepted table's frames. This
// crate is inner: simulation, reach and clock rest on it, and only crates of this repository call it.
#![tactic(auto)]

pub mod equations;
pub mod gate_values;
pub mod places;
