//! What a transaction has asked and changed so far, which of its requests a fact meets, and what it hands over to be committed.
#![tactic(auto)]

mod meeting;
mod parts;
mod recorded;
#[cfg(test)]
mod samples;
#[cfg(test)]
mod tests;

pub use parts::{Met, Parts};
pub use recorded::Recorded;
