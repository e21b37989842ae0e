// Document 01's limits and rules, for the code. specs/Limits.antt has the limits for the definitions.
#![tactic(auto)]

pub mod rules;

pub use rules::{Refusal, Rule};

// The most words of a table.
pub const TABLE_WORDS: usize = 8192;
// The most wires of a circuit, and the least length of a value or reading buffer.
pub const WIRES: usize = 8192;
// The least length of the notes: two words for each wire.
pub const NOTES_WORDS: usize = 16384;
// The highest stage of a wire.
pub const LAST_STAGE: usize = 255;
