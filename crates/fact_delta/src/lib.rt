//! A set of facts that is a base with what came to it and what went from it.
#![tactic(auto)]

mod delta;
mod lists;
#[cfg(test)]
mod tests;

pub use delta::{Delta, Moved};
pub use lists::{absent, is_in_order, marked};
