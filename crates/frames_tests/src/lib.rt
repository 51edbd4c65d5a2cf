// The reader, driven with damaged frames.
#![tactic(auto)]

pub mod flags;
#[cfg(test)]
mod tests;
