use crate::{Object, Said, TripleFault, fact_of};
use dl_base::{Fact, Kind, Name, Ontology};
use dl_text::canonical_value;
use std::alloc::Global;
use std::test::Fail;

/// A class, a role, an attribute and an annotation property, numbered from 0.
fn school(alloc: Global) -> Result<Ontology, Fail> {
    let mut terms = Vec::new(alloc);
    for (name, kind) in [
        ("http://u.example/Prof", Kind::Class),
        ("http://u.example/teaches", Kind::Role),
        ("http://u.example/badge", Kind::Attr),
        ("http://u.example/note", Kind::Note),
    ] {
        terms.push((Name::of(alloc, name.as_bytes())?, kind))?;
    }
    Ok(Ontology::of(alloc, terms, Vec::new(alloc))?)
}

/// An IRI, or behind a `"` the text of a literal without datatype and tag.
fn object(alloc: Global, written: &str) -> Result<Object, Fail> {
    match written.strip_prefix("\"") {
        None => Ok(Object::Iri(Name::of(alloc, written.as_bytes())?)),
        Some(text) => Ok(Object::Literal(canonical_value(alloc, text.as_bytes(), b"", b"")?)),
    }
}

/// The answer as a word: the kind of the fact with its term, `skipped`, or the fault.
fn told(alloc: Global, answer: Result<Said, TripleFault>) -> Result<String, Fail> {
    let text = match answer {
        Ok(Said::Skipped) => format!(in alloc; "skipped")?,
        Ok(Said::Fact(Fact::Class(term, _))) => format!(in alloc; "class {}", term.0)?,
        Ok(Said::Fact(Fact::Role(term, _, _))) => format!(in alloc; "role {}", term.0)?,
        Ok(Said::Fact(Fact::Attr(term, _, _))) => format!(in alloc; "attr {}", term.0)?,
        Err(TripleFault::UnknownTerm) => format!(in alloc; "UnknownTerm")?,
        Err(TripleFault::WrongKind) => format!(in alloc; "WrongKind")?,
    };
    Ok(text)
}

const TYPE: &str = "http://www.w3.org/1999/02/22-rdf-syntax-ns#type";

/// Predicates, objects as they are written, and what the triple says.
const TRIPLES: [(&str, &str, &str); 21] = [
    (TYPE, "http://u.example/Prof", "class 0"),
    (TYPE, "http://u.example/Dean", "UnknownTerm"),
    (TYPE, "http://u.example/teaches", "WrongKind"),
    (TYPE, "http://u.example/note", "WrongKind"),
    (TYPE, "\"Prof", "WrongKind"),
    (TYPE, "http://www.w3.org/2002/07/owl#Thing", "skipped"),
    (
        TYPE,
        "http://www.w3.org/2002/07/owl#NamedIndividual",
        "skipped",
    ),
    (TYPE, "http://www.w3.org/2002/07/owl#Nothing", "UnknownTerm"),
    (
        "http://u.example/teaches",
        "http://u.example/Prof",
        "role 1",
    ),
    ("http://u.example/teaches", "\"logic", "WrongKind"),
    ("http://u.example/badge", "\"7", "attr 2"),
    ("http://u.example/badge", "http://u.example/b7", "WrongKind"),
    ("http://u.example/Prof", "http://u.example/b7", "WrongKind"),
    (
        "http://u.example/knows",
        "http://u.example/b7",
        "UnknownTerm",
    ),
    ("http://u.example/note", "http://u.example/b7", "skipped"),
    ("http://u.example/note", "\"old", "skipped"),
    (
        "http://www.w3.org/2000/01/rdf-schema#label",
        "\"Ann",
        "skipped",
    ),
    (
        "http://www.w3.org/2000/01/rdf-schema#comment",
        "\"Ann",
        "skipped",
    ),
    (
        "http://www.w3.org/2000/01/rdf-schema#seeAlso",
        "http://u.example/b7",
        "skipped",
    ),
    (
        "http://www.w3.org/2000/01/rdf-schema#isDefinedBy",
        "http://u.example/b7",
        "skipped",
    ),
    (
        "http://www.w3.org/2000/01/rdf-schema#range",
        "http://u.example/b7",
        "UnknownTerm",
    ),
];

#[test]
fn a_triple_says_what_its_names_are(rt: HostRuntime) -> Result<(), Fail> {
    let alloc = rt.alloc();
    let ontology = school(alloc)?;
    for (predicate, written, want) in TRIPLES {
        let subject = Name::of(alloc, b"http://u.example/ann")?;
        let object = object(alloc, written)?;
        let answer = told(
            alloc,
            fact_of(&ontology, subject, predicate.as_bytes(), object),
        )?;
        assert_eq!(rt; answer.as_str(), want);
    }
    Ok(())
}
