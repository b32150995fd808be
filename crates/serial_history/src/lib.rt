//! A serial history that is committed to: its entries, each shared by several owners, the rules in force at each version, the version that stands,
//! what stands in the way of a transaction, what a commit changes, and how another ontology is put in force.
#![tactic(auto)]

mod changing;
mod committing;
mod histories;
mod log;
mod marking;
mod replacing;
#[cfg(test)]
mod tests;
mod validating;

pub use histories::History;
pub use replacing::Replacing;
pub use validating::validate;
