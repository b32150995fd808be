//! A lock that keeps one history. It hands a state round by turns; its seats know what they have seen of the state's history, and in each turn
//! the history begins with that.
#![tactic(auto)]

mod histories;
mod lock;
mod plays;
mod refusals;
mod rule;
#[cfg(test)]
mod samples;
mod seats;
mod steps;
#[cfg(test)]
mod tests;

pub use histories::{Grows, Opening};
pub use lock::HistoryLock;
pub use refusals::{Refused, SplitRefusal};
pub use seats::Seat;
