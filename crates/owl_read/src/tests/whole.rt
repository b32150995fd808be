use super::{document, outcome};
use crate::{ReadOntology, read_ontology, read_ontology_over};
use dl_base::{Fact, Kind};
use dl_text::ReadRefusal;
use std::alloc::Global;
use std::test::Fail;

/// A small ontology as an editor saves it.
const REGISTER: &str = "Prefix(:=<http://r.example/>)
Prefix(owl:=<http://www.w3.org/2002/07/owl#>)
Prefix(rdfs:=<http://www.w3.org/2000/01/rdf-schema#>)
Prefix(xsd:=<http://www.w3.org/2001/XMLSchema#>)

Ontology(<http://r.example/onto> <http://r.example/onto/1.0>
Annotation(rdfs:comment \"Staff # register\"@en)

Declaration(Class(:Employee))
Declaration(Class(:Person))
Declaration(Class(:Team))
Declaration(ObjectProperty(:memberOf))
Declaration(DataProperty(:since))
Declaration(AnnotationProperty(:note))
Declaration(NamedIndividual(:eva))

############################
#   Object Properties
############################

# Object Property: :memberOf (member of)

AnnotationAssertion(rdfs:label :memberOf \"member of\")
ObjectPropertyDomain(:memberOf :Person)
ObjectPropertyRange(:memberOf :Team)

SubClassOf(Annotation(:note \"checked\") :Employee ObjectIntersectionOf(:Person ObjectSomeValuesFrom(:memberOf owl:Thing)))
DisjointClasses(:Person :Team)
ClassAssertion(:Employee :eva)
)
";

/// The number of terms, axioms, facts and skipped assertions.
fn sizes(alloc: Global, read: &ReadOntology) -> Result<String, Fail> {
    let terms = read.ontology.terms();
    let axioms = read.ontology.axioms().len();
    let facts = read.facts.as_slice().len();
    let skipped = read.skipped;
    Ok(format!(in alloc; "{terms} {axioms} {facts} {skipped}")?)
}

#[test]
fn the_register_is_read(rt: HostRuntime) -> Result<(), Fail> {
    let alloc = rt.alloc();
    let read = read_ontology(alloc, REGISTER.as_bytes())?;
    let got = sizes(alloc, &read)?;
    assert_eq!(rt; got.as_str(), "6 5 1 0");
    let employee = match read.facts.get(0) {
        Some(Fact::Class(class, name)) => class.0 == 0
            && name.as_slice() == b"http://r.example/eva".as_slice(),
        _ => false,
    };
    assert!(rt; employee);
    Ok(())
}

#[test]
fn assertions_stand_in_order_without_repeats(rt: HostRuntime) -> Result<(), Fail> {
    let alloc = rt.alloc();
    let inside =
        "ClassAssertion(:A :b) ClassAssertion(:A :a) ClassAssertion(owl:Thing :a) ClassAssertion(:A :b)
ObjectPropertyAssertion(ObjectInverseOf(:p) :a :b) DataPropertyAssertion(:u :a \"+07\"^^xsd:integer)";
    let text = document(alloc, inside)?;
    let read = read_ontology(alloc, text.as_slice())?;
    let got = sizes(alloc, &read)?;
    assert_eq!(rt; got.as_str(), "3 0 4 1");
    let turned = match read.facts.get(2) {
        Some(Fact::Role(_, from, to)) => {
            from.as_slice() == b"http://u.example/b".as_slice()
                && to.as_slice() == b"http://u.example/a".as_slice()
        }
        _ => false,
    };
    assert!(rt; turned);
    let seven = match read.facts.get(3) {
        Some(Fact::Attr(_, _, value)) => value.text.as_slice() == b"7".as_slice(),
        _ => false,
    };
    assert!(rt; seven);
    Ok(())
}

#[test]
fn what_is_functional_is_not_specialised(rt: HostRuntime) -> Result<(), Fail> {
    let alloc = rt.alloc();
    let text = "Prefix(:=<http://u.example/>)
Ontology(
FunctionalObjectProperty(:p)
SubObjectPropertyOf(:q :p)
)
";
    let got = outcome(alloc, text.as_bytes())?;
    assert_eq!(rt; got.as_str(), "FunctionalSpecialised 4");
    Ok(())
}

#[test]
fn the_terms_of_a_base_come_first(rt: HostRuntime) -> Result<(), Fail> {
    let alloc = rt.alloc();
    let base = read_ontology(alloc, REGISTER.as_bytes())?;
    let later = "Prefix(:=<http://r.example/>) Ontology(
SubClassOf(:New :Person) ClassAssertion(:New :a) ClassAssertion(:New :a) ClassAssertion(owl:Thing :a))";
    let over = read_ontology_over(alloc, later.as_bytes(), &base.ontology)?;
    let got = sizes(alloc, &over)?;
    assert_eq!(rt; got.as_str(), "7 1 0 3");
    let new = match over.ontology.term(b"http://r.example/New") {
        Some((term, kind)) => term.0 == 6 && kind == Kind::Class,
        None => false,
    };
    assert!(rt; new);
    let other = "Ontology(\nDeclaration(ObjectProperty(<http://r.example/Person>)))";
    let refused = match read_ontology_over(alloc, other.as_bytes(), &base.ontology) {
        Err(ReadRefusal::Refused { line, kind }) => line == 2 && kind.number() == 14,
        _ => false,
    };
    assert!(rt; refused);
    Ok(())
}
