//! The opening of a base: an ontology, its facts, and that they are consistent.
#![tactic(auto)]

mod opening;
mod refusals;
#[cfg(test)]
mod tests;
mod whole;

pub use opening::{Opened, load_over, open};
pub use refusals::LoadRefusal;
pub use whole::load;
