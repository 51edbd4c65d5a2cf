// The script language of `slots`: lines of bytes, their words, and the commands they spell.
#![tactic(auto)]

pub mod command;
pub mod lines;
mod marks;
#[cfg(test)]
mod tests;
pub mod words;
