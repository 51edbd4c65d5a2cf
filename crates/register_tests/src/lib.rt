// Tests of the register and of its session, in a crate of their own so that the register is proved once.
#![tactic(auto)]

pub mod broken;
#[cfg(test)]
mod refusals;
pub mod rounds;
#[cfg(test)]
mod sessions;
