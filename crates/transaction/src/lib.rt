//! The pure core: editors begin transactions, ask, change facts and commit, and replace the ontology; what comes of it is one serial history.
#![tactic(auto)]

mod bases;
mod begun;
mod committing;
mod effects;
mod events;
mod refusals;
mod requests;
#[cfg(test)]
mod samples;
mod transactions;
mod worlds;

pub use bases::Base;
pub use events::{Event, Reply};
pub use refusals::TxRefusal;
pub use transactions::{MOST_REQUESTS, Transaction};
pub use worlds::World;
