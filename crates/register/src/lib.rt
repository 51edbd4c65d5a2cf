// The slot register: participants settle cells by the steps of TPaxos.
#![tactic(auto)]

pub mod answer;
mod bench;
pub mod desk;
mod held;
pub mod register;
pub mod round;
pub mod session;
mod size;
