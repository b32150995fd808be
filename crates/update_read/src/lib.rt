//! Ground SPARQL 1.1 Updates: the facts that they insert and delete, or the first refusal at its line.
#![tactic(auto)]

mod ahead;
mod cutting;
mod gathering;
mod laws;
mod lexing;
mod lists;
mod locals;
mod meaning;
mod numbers;
mod progress;
mod reading;
mod spots;
mod steps;
mod syntax;
#[cfg(test)]
mod tests;
mod texts;
mod tokens;
mod views;

pub use laws::reads_one;
pub use reading::{ReadUpdate, read_update};
