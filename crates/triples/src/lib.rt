//! What a triple of RDF says under an ontology: a fact, nothing, or why neither.
#![tactic(auto)]

mod laws;
mod meaning;
mod names;
#[cfg(test)]
mod tests;

pub use laws::said_is_known;
pub use meaning::{Object, Said, TripleFault, fact_of};
pub use names::{
    owl_named_individual, owl_thing, rdf_type, rdfs_comment, rdfs_is_defined_by, rdfs_label,
    rdfs_see_also,
};
