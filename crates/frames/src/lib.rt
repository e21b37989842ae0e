// The frames of a table: what a kind word decides, and the walk from frame to frame. The checker, the reader of text and the
// crates that work on accepted tables all rest on these.
#![tactic(auto)]

pub mod kinds;
pub mod randoms;
pub mod walk;
