// Posts at work.
#![tactic(auto)]

#[cfg(test)]
mod layers;
#[cfg(test)]
mod lines;
#[cfg(test)]
mod shelves;
pub mod void;
