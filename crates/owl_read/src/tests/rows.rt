use super::{axioms, document};
use std::test::Fail;

/// Each axiom of a document with the axioms that it gives. Terms are numbered as they appear first.
const ROWS: [(&str, &str); 37] = [
    ("SubClassOf(:A :B)", "in 0 1;"),
    ("SubClassOf(:A :A)", "in 0 0;"),
    ("SubClassOf(:A owl:Thing)", ""),
    ("SubClassOf(owl:Nothing :A)", ""),
    ("SubClassOf(:A owl:Nothing)", "apart 0 0;"),
    ("SubClassOf(:A ObjectComplementOf(:B))", "apart 0 1;"),
    (
        "SubClassOf(ObjectSomeValuesFrom(:p owl:Thing) DataSomeValuesFrom(:u rdfs:Literal))",
        "in E0 D1;",
    ),
    (
        "SubClassOf(:A ObjectSomeValuesFrom(:p owl:Thing))",
        "in 0 E1;",
    ),
    (
        "SubClassOf(:A ObjectSomeValuesFrom(ObjectInverseOf(:p) :B))",
        "some 0 1- 2;",
    ),
    (
        "SubClassOf(:A ObjectSomeValuesFrom(:p owl:Nothing))",
        "apart 0 0;",
    ),
    (
        "SubClassOf(:A ObjectIntersectionOf(owl:Nothing ObjectComplementOf(:B) ObjectSomeValuesFrom(:p :C) ObjectIntersectionOf(:D owl:Thing)))",
        "in 0 4;some 0 2 3;apart 0 1;apart 0 0;",
    ),
    ("EquivalentClasses(:A :B)", "in 0 1;in 1 0;"),
    ("EquivalentClasses(:A :B :C)", "in 0 1;in 1 2;in 2 0;"),
    ("EquivalentClasses(:A owl:Nothing :B)", "apart 0 0;in 1 0;"),
    (
        "DisjointClasses(:A :B :C)",
        "apart 0 1;apart 0 2;apart 1 2;",
    ),
    ("DisjointClasses(:A owl:Nothing :B)", "apart 0 1;"),
    ("SubObjectPropertyOf(:p ObjectInverseOf(:q))", "role 0 1-;"),
    ("SubObjectPropertyOf(:p :p)", ""),
    ("EquivalentObjectProperties(:p :q)", "role 0 1;role 1 0;"),
    ("DisjointObjectProperties(:p :p)", "rapart 0 0;"),
    ("InverseObjectProperties(:p :q)", "role 0 1-;role 1- 0;"),
    ("InverseObjectProperties(:p ObjectInverseOf(:p))", ""),
    (
        "InverseObjectProperties(:p ObjectInverseOf(:q))",
        "role 0 1;role 1 0;",
    ),
    ("ObjectPropertyDomain(:p :A)", "in E0 1;"),
    ("ObjectPropertyRange(:p :A)", "in E0- 1;"),
    ("ObjectPropertyRange(ObjectInverseOf(:p) :A)", "in E0 1;"),
    ("SymmetricObjectProperty(:p)", "role 0 0-;"),
    (
        "AsymmetricObjectProperty(ObjectInverseOf(:p))",
        "rapart 0- 0;",
    ),
    ("FunctionalObjectProperty(:p)", "fun 0;"),
    ("InverseFunctionalObjectProperty(:p)", "fun 0-;"),
    (
        "SubDataPropertyOf(:u :w) SubDataPropertyOf(:u :u)",
        "attr 0 1;",
    ),
    (
        "EquivalentDataProperties(:u :w) DisjointDataProperties(:u :w)",
        "attr 0 1;attr 1 0;aapart 0 1;",
    ),
    ("DataPropertyDomain(:u :A)", "in D0 1;"),
    ("DataPropertyRange(:u xsd:integer)", "range 0 40;"),
    ("DataPropertyRange(:u rdfs:Literal)", ""),
    ("FunctionalDataProperty(:u)", "afun 0;"),
    (
        "DifferentIndividuals(:a :b) SubAnnotationPropertyOf(:n rdfs:label) Declaration(Class(owl:Thing))",
        "",
    ),
];

#[test]
fn each_row_gives_its_axioms(rt: HostRuntime) -> Result<(), Fail> {
    let alloc = rt.alloc();
    for (inside, want) in ROWS {
        let text = document(alloc, inside)?;
        let got = axioms(alloc, text.as_slice())?;
        assert_eq!(rt; got.as_str(), want);
    }
    Ok(())
}
