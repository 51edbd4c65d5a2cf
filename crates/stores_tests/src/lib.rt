// The stores at work over memory.
#![tactic(auto)]

#[cfg(test)]
mod tests;
