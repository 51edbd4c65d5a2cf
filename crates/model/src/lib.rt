// The words that every layer shares: entries and rows, sets of participants, faults.
#![tactic(auto)]

pub mod bytes;
pub mod entries;
pub mod faults;
pub mod rows;
pub mod sets;
