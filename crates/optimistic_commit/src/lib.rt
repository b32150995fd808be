//! Optimistic commits: a transaction that ran at an older version is validated against what was committed since, and published as an entry of a
//! legal history. Another ontology is put in force by an entry too.
#![tactic(auto)]

mod publishing;
#[cfg(test)]
mod replacements;
#[cfg(test)]
mod samples;
mod states;
#[cfg(test)]
mod tests;

pub use publishing::Published;
pub use serial_history::{Replacing, validate};
pub use states::State;
