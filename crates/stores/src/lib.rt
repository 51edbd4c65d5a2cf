// Stores: what a participant still knows after a crash.
#![tactic(auto)]

pub mod brittle;
pub mod journal;
pub mod page;
mod raw;
pub mod store;
