//! Ontologies in OWL 2 functional-style syntax, as far as DL-Lite_A goes: the terms, axioms and assertions of a document.
#![tactic(auto)]

mod annotations;
mod arguments;
mod assertions;
mod attr_axioms;
mod builtins;
mod class_axioms;
mod concepts;
mod declarations;
mod documents;
mod forms;
mod laws;
mod literals;
mod nodes;
mod outcomes;
mod reader;
mod reading;
mod rights;
mod role_axioms;
mod roles;
mod scope;
mod sides;
mod table;
#[cfg(test)]
mod tests;

pub use laws::{reads_one, reads_over_one, tests_agree};
pub use reading::{ReadOntology, read_ontology, read_ontology_over};
