use super::{document, outcome};
use std::test::Fail;

/// Each document's inside with its answer: places from left to right, then the axiom as a whole.
const REFUSED: [(&str, &str); 40] = [
    ("SubClassOf(:A x:B)", "UnknownPrefix 2"),
    ("SubClassOf(:A xsd:\u{b7})", "Syntax 2"),
    ("SubClassOf(:A\n:B :C)", "Syntax 2"),
    ("SubClassOf(:A)", "Syntax 2"),
    ("SubClassOf(:A\n\"text\")", "Syntax 3"),
    ("SubClassOf(:A\n7)", "Syntax 3"),
    ("SubClassOf(:A\n_:x)", "Syntax 3"),
    ("SubClassOf(:A\n(:B))", "Syntax 3"),
    ("SubClassOf(owl:Thing :B)", "NotDlLite 2"),
    ("SubClassOf(rdfs:label :B)", "NotDlLite 2"),
    ("SubClassOf(owl:topObjectProperty :B)", "NotDlLite 2"),
    ("SubClassOf(:A\nObjectUnionOf(:B :C))", "NotDlLite 3"),
    (
        "SubClassOf(ObjectSomeValuesFrom(\n:p :B) :C)",
        "NotDlLite 2",
    ),
    ("SubClassOf(ObjectSomeValuesFrom(:p) :C)", "Syntax 2"),
    ("SubClassOf(:A ObjectIntersectionOf(:B))", "Syntax 2"),
    (
        "SubClassOf(:A ObjectComplementOf(\nObjectComplementOf(:B)))",
        "NotDlLite 3",
    ),
    (
        "SubClassOf(:A ObjectComplementOf(\nowl:Nothing))",
        "NotDlLite 3",
    ),
    (
        "SubClassOf(:A ObjectSomeValuesFrom(:p\nObjectSomeValuesFrom(:q :B)))",
        "NotDlLite 3",
    ),
    (
        "SubObjectPropertyOf(ObjectInverseOf(\nObjectInverseOf(:p)) :q)",
        "NotDlLite 3",
    ),
    ("SubObjectPropertyOf(rdf:type :q)", "NotDlLite 2"),
    ("EquivalentClasses(:A)", "Syntax 2"),
    ("HasKey(:A () (:u))", "NotDlLite 2"),
    ("TransitiveObjectProperty(:p)", "NotDlLite 2"),
    ("Import(<http://u.example/other>)", "Import 2"),
    (
        "Declaration(Class(:p))\nDeclaration(ObjectProperty(:p))",
        "TwoKinds 3",
    ),
    ("Declaration(:A)", "Syntax 2"),
    ("Declaration(Class(:A :B))", "Syntax 2"),
    ("Declaration(Thing(:A))", "NotDlLite 2"),
    ("Declaration(DataProperty(owl:Thing))", "NotDlLite 2"),
    ("ClassAssertion(:A _:x)", "BlankNode 2"),
    ("ClassAssertion(owl:Nothing :a)", "NotDlLite 2"),
    ("DifferentIndividuals(:a :b\n:a)", "NotDlLite 3"),
    (
        "DataPropertyAssertion(:u :a\n\"x\"^^xsd:integer)",
        "BadLiteral 3",
    ),
    ("DataPropertyAssertion(:u :a\n:b)", "Syntax 3"),
    ("DataPropertyRange(:u DataOneOf(\"a\"))", "NotDlLite 2"),
    ("SubClassOf(Annotation(:p) :A :B)", "Syntax 2"),
    ("SubClassOf(Annotation(:A\n\"x\") :A :B)", "TwoKinds 3"),
    ("AnnotationAssertion(owl:Thing :a \"x\")", "NotDlLite 2"),
    (
        "FunctionalDataProperty(:u)\nSubDataPropertyOf(:w :u)",
        "FunctionalSpecialised 3",
    ),
    (
        "InverseObjectProperties(:p :q)\nFunctionalObjectProperty(ObjectInverseOf(:q))",
        "FunctionalSpecialised 3",
    ),
];

#[test]
fn refusals_come_at_their_line(rt: HostRuntime) -> Result<(), Fail> {
    let alloc = rt.alloc();
    for (inside, want) in REFUSED {
        let text = document(alloc, inside)?;
        let got = outcome(alloc, text.as_slice())?;
        assert_eq!(rt; got.as_str(), want);
    }
    Ok(())
}
