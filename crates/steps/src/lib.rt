// What the steps of TPaxos make of entries, and what a row shows.
#![tactic(auto)]

pub mod entry;
pub mod row;
