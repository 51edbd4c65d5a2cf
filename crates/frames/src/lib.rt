// Frames: what participants send each other, and its bytes.
#![tactic(auto)]

pub mod fault;
pub mod header;
pub mod reader;
pub mod sort;
pub mod writer;
