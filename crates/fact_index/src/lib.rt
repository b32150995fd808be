//! Sets of facts that are looked up by predicate with subject, with object and with both.
#![tactic(auto)]

mod index;
mod links;
mod numbers;
mod places;
#[cfg(test)]
mod samples;
mod shared;
#[cfg(test)]
mod tests;
mod whole;

pub use index::{Index, Refused};
pub use whole::Whole;
