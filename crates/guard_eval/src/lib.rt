//! The facts of a set that match one of several patterns.
#![tactic(auto)]

mod finding;
#[cfg(test)]
mod tests;

pub use finding::found;
