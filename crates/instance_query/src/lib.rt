//! What follows from a set of facts, by pattern.
#![tactic(auto)]

mod answering;
#[cfg(test)]
mod tests;

pub use answering::answers;
