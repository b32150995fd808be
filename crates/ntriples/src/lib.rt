//! Facts as lines of RDF 1.1 N-Triples.
#![tactic(auto)]

mod cutting;
mod faults;
mod files;
mod gathering;
mod grammar;
mod laws;
mod lines;
mod meaning;
mod measuring;
mod pieces;
mod printing;
#[cfg(test)]
mod tests;
mod tokens;
mod writing;

pub use files::{ReadFacts, read_facts};
pub use laws::{printed_reads, reads_one};
pub use measuring::line_length;
pub use printing::{print_facts, push_line};
pub use writing::write_line;
