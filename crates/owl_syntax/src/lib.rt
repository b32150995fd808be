//! The tokens and the tree of an OWL 2 ontology in functional-style syntax.
#![tactic(auto)]

mod body;
mod cutting;
mod frame;
mod laws;
mod nodes;
mod parsing;
mod pieces;
mod prefixes;
mod states;
#[cfg(test)]
mod tests;
mod texts;

pub use laws::parses_one;
pub use nodes::{Document, Node, PrefixLine};
pub use parsing::parse;
