//! Opening facts tested against an ontology.

use super::documents::{EMPTY, REGISTER};
use super::{Row, comes};
use std::test::Fail;

#[test]
fn a_register_with_its_facts_is_counted(rt: HostRuntime) -> Result<(), Fail> {
    let row = Row {
        words: &["check", "reg.ofn", "reg.nt"],
        files: &[
            REGISTER,
            (
                "reg.nt",
                &[
                    "<http://r.example/eva> <http://www.w3.org/2000/01/rdf-schema#label> \"Eva\" .
<http://r.example/eva> <http://www.w3.org/1999/02/22-rdf-syntax-ns#type> <http://www.w3.org/2002/07/owl#NamedIndividual> .
<http://r.example/eva> <http://r.example/memberOf> <http://r.example/t1> .
<http://r.example/eva> <http://r.example/since> \"+2019\"^^<http://www.w3.org/2001/XMLSchema#integer> .
<http://r.example/eva> <http://www.w3.org/1999/02/22-rdf-syntax-ns#type> <http://r.example/Employee> .
",
                ],
            ),
        ],
        status: 0,
        printed: "consistent\nterms 6\nfacts 3\nskipped 2\n",
    };
    comes(&rt, rt.alloc(), row)?;
    Ok(())
}

#[test]
fn a_register_alone_is_counted(rt: HostRuntime) -> Result<(), Fail> {
    let row = Row {
        words: &["check", "reg.ofn"],
        files: &[REGISTER],
        status: 0,
        printed: "consistent\nterms 6\nfacts 1\nskipped 0\n",
    };
    comes(&rt, rt.alloc(), row)?;
    Ok(())
}

#[test]
fn a_student_who_teaches_contradicts(rt: HostRuntime) -> Result<(), Fail> {
    let row = Row {
        words: &["check", "u.ofn", "f.nt"],
        files: &[
            EMPTY,
            (
                "f.nt",
                &[
                    "<http://u.example/ann> <http://www.w3.org/1999/02/22-rdf-syntax-ns#type> <http://u.example/Student> .
<http://u.example/ann> <http://u.example/teaches> <http://u.example/cs1> .
",
                ],
            ),
        ],
        status: 4,
        printed: "error inconsistent pair
<http://u.example/ann> <http://www.w3.org/1999/02/22-rdf-syntax-ns#type> <http://u.example/Student> .
<http://u.example/ann> <http://u.example/teaches> <http://u.example/cs1> .
",
    };
    comes(&rt, rt.alloc(), row)?;
    Ok(())
}

#[test]
fn a_badge_that_is_no_integer_is_refused(rt: HostRuntime) -> Result<(), Fail> {
    let row = Row {
        words: &["check", "u.ofn", "f.nt"],
        files: &[
            EMPTY,
            (
                "f.nt",
                &[
                    "<http://u.example/ann> <http://u.example/badge> \"7a\"^^<http://www.w3.org/2001/XMLSchema#integer> .\n",
                ],
            ),
        ],
        status: 3,
        printed: "error f.nt 4 BadLiteral line 1\n",
    };
    comes(&rt, rt.alloc(), row)?;
    Ok(())
}

#[test]
fn a_specialised_functional_role_is_refused(rt: HostRuntime) -> Result<(), Fail> {
    let row = Row {
        words: &["check", "o.ofn"],
        files: &[(
            "o.ofn",
            &[
                "Prefix(:=<http://u.example/>)
Ontology(
FunctionalObjectProperty(:p)
SubObjectPropertyOf(:q :p)
)
",
            ],
        )],
        status: 3,
        printed: "error o.ofn 15 FunctionalSpecialised line 4\n",
    };
    comes(&rt, rt.alloc(), row)?;
    Ok(())
}

#[test]
fn a_functional_role_with_a_chosen_partner_is_refused(rt: HostRuntime) -> Result<(), Fail> {
    let row = Row {
        words: &["check", "o.ofn"],
        files: &[(
            "o.ofn",
            &[
                "Prefix(:=<http://u.example/>)
Ontology(
FunctionalObjectProperty(:p)
SubClassOf(:A ObjectSomeValuesFrom(:p :B))
)
",
            ],
        )],
        status: 3,
        printed: "error o.ofn 15 FunctionalSpecialised line 4\n",
    };
    comes(&rt, rt.alloc(), row)?;
    Ok(())
}

#[test]
fn a_functional_role_with_an_inverse_is_refused(rt: HostRuntime) -> Result<(), Fail> {
    let row = Row {
        words: &["check", "o.ofn"],
        files: &[(
            "o.ofn",
            &[
                "Prefix(:=<http://u.example/>)
Ontology(
InverseObjectProperties(:p :s)
FunctionalObjectProperty(:p)
)
",
            ],
        )],
        status: 3,
        printed: "error o.ofn 15 FunctionalSpecialised line 4\n",
    };
    comes(&rt, rt.alloc(), row)?;
    Ok(())
}

#[test]
fn a_missing_ontology_is_told(rt: HostRuntime) -> Result<(), Fail> {
    let row = Row {
        words: &["check", "none.ofn"],
        files: &[EMPTY],
        status: 3,
        printed: "error none.ofn 31 Missing\n",
    };
    comes(&rt, rt.alloc(), row)?;
    Ok(())
}

// The ontology is read before the file of facts is looked for.
#[test]
fn a_broken_ontology_is_told_before_a_missing_file(rt: HostRuntime) -> Result<(), Fail> {
    let row = Row {
        words: &["check", "o.ofn", "none.nt"],
        files: &[("o.ofn", &["Ontology(\nSubClassOf(\n)\n"])],
        status: 3,
        printed: "error o.ofn 10 Syntax line 4\n",
    };
    comes(&rt, rt.alloc(), row)?;
    Ok(())
}
