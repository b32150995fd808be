ghost use Rattle.std.specs.Prelude.{◌≡◌, IfOk};
ghost use Rattle.triples.specs.Meaning.{term_of, is_label, is_note, is_anything, is_skipped, membership, class_said, link_said, said_of, KnowsSaid, kind_of};

use crate::names::{
    owl_named_individual, owl_thing, rdf_type, rdfs_comment, rdfs_is_defined_by, rdfs_label,
    rdfs_see_also,
};
use dl_base::{Fact, Kind, Name, Ontology, Term, Value};
use dl_text::ReadKind;
use thiserror::Error;

/// The object of a triple: an IRI, or the value of a literal.
#[derive(Debug, Drop)]
pub enum Object {
    Iri(Name),
    Literal(Value),
}

/// What a triple says: a fact, or nothing that the ontology speaks of.
#[derive(Debug, Drop)]
pub enum Said {
    Skipped,
    Fact(Fact),
}

/// Why a triple says nothing that can be a fact.
#[derive(Clone, Copy, Debug, PartialEq, Eq, Error)]
pub enum TripleFault {
    #[error("no term has the name")]
    UnknownTerm,
    #[error("a term of another kind")]
    WrongKind,
}

impl TripleFault {
    /// The kind of refusal that the fault leads to.
    pub fn kind(self) -> ReadKind
        ensures { result ≡ kind_of self }
    {
        match self {
            TripleFault::UnknownTerm => ReadKind::UnknownTerm,
            TripleFault::WrongKind => ReadKind::WrongKind,
        }
    }
}

/// The term with this name, and its kind.
fn term_of(ontology: &Ontology, name: &[u8]) -> Option<(Term, Kind)>
    ensures { result ≡ term_of ontology.now name.now }
{
    let _terms = ontology.terms();
    ontology.term(name)
}

fn is_label(name: &[u8]) -> bool
    ensures { result ≡ is_label name.now }
{
    name == rdfs_label()
        || name == rdfs_comment()
        || name == rdfs_see_also()
        || name == rdfs_is_defined_by()
}

fn is_note(term: Option<(Term, Kind)>) -> bool
    ensures { result ≡ is_note term }
{
    match term {
        None => false,
        Some((_, kind)) => match kind {
            Kind::Note => true,
            Kind::Class | Kind::Role | Kind::Attr => false,
        },
    }
}

fn is_anything(object: &Object) -> bool
    ensures { result ≡ is_anything object.now }
{
    match object {
        Object::Iri(name) => {
            name.as_slice() == owl_named_individual() || name.as_slice() == owl_thing()
        }
        Object::Literal(_) => false,
    }
}

/// That the subject is in what has the name.
fn membership(subject: Name, term: Option<(Term, Kind)>) -> Result<Said, TripleFault>
    ensures { result ≡ membership subject term }
{
    match term {
        None => Err(TripleFault::UnknownTerm),
        Some((class, kind)) => match kind {
            Kind::Class => Ok(Said::Fact(Fact::Class(class, subject))),
            Kind::Role | Kind::Attr | Kind::Note => Err(TripleFault::WrongKind),
        },
    }
}

/// That the subject is in what the object names.
fn class_said(ontology: &Ontology, subject: Name, object: Object) -> Result<Said, TripleFault>
    ensures { result ≡ class_said ontology.now subject object }
{
    match object {
        Object::Iri(name) => membership(subject, term_of(ontology, name.as_slice())),
        Object::Literal(_) => Err(TripleFault::WrongKind),
    }
}

fn role_said(subject: Name, role: Term, object: Object) -> Result<Said, TripleFault>
    ensures { result ≡ link_said subject (Some (role, Kind.Role)) object }
{
    match object {
        Object::Iri(name) => Ok(Said::Fact(Fact::Role(role, subject, name))),
        Object::Literal(_) => Err(TripleFault::WrongKind),
    }
}

fn attr_said(subject: Name, attr: Term, object: Object) -> Result<Said, TripleFault>
    ensures { result ≡ link_said subject (Some (attr, Kind.Attr)) object }
{
    match object {
        Object::Iri(_) => Err(TripleFault::WrongKind),
        Object::Literal(value) => Ok(Said::Fact(Fact::Attr(attr, subject, value))),
    }
}

/// That the predicate joins the subject to the object.
fn link_said(subject: Name, term: Option<(Term, Kind)>, object: Object) -> Result<Said, TripleFault>
    ensures { result ≡ link_said subject term object }
{
    match term {
        None => Err(TripleFault::UnknownTerm),
        Some((term, kind)) => match kind {
            Kind::Role => role_said(subject, term, object),
            Kind::Attr => attr_said(subject, term, object),
            Kind::Class | Kind::Note => Err(TripleFault::WrongKind),
        },
    }
}

/// What the triple says. It is skipped where its predicate is an annotation property of the ontology, `rdfs:label`, `rdfs:comment`,
/// `rdfs:seeAlso` or `rdfs:isDefinedBy`, or where it is `rdf:type` with `owl:NamedIndividual` or `owl:Thing`. Otherwise `rdf:type` with the
/// name of a class, a role with a name and an attribute with a value are facts. `UnknownTerm` where the name that decides is no term,
/// that of the object behind `rdf:type` and else the predicate, and `WrongKind` where it is a term of another kind or the object is.
pub fn fact_of(
    ontology: &Ontology,
    subject: Name,
    predicate: &[u8],
    object: Object,
) -> Result<Said, TripleFault>
    ensures said { result ≡ said_of ontology.now subject predicate.now object }
    ensures known { IfOk result (KnowsSaid ontology.now) }
{
    let term = term_of(ontology, predicate);
    let is_type = predicate == rdf_type();
    if is_label(predicate) || is_note(term) || (is_type && is_anything(&object)) {
        return Ok(Said::Skipped);
    }
    if is_type {
        class_said(ontology, subject, object)
    } else {
        link_said(subject, term, object)
    }
}
