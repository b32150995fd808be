//! One update over an ontology's own assertions.

use super::documents::{APPLY, DELETES_PROF, EMPTY, INSERTS_STUDENT, OF_ANN, OF_TEACHING, TORN};
use super::{Row, comes};
use std::test::Fail;

#[test]
fn a_deleted_class_leaves_its_superclasses(rt: HostRuntime) -> Result<(), Fail> {
    let row = Row {
        words: APPLY,
        files: &[OF_ANN, DELETES_PROF],
        status: 0,
        printed: "skipped 0
lost 1
<http://u.example/ann> <http://www.w3.org/1999/02/22-rdf-syntax-ns#type> <http://u.example/Prof> .
stored 2
<http://u.example/ann> <http://www.w3.org/1999/02/22-rdf-syntax-ns#type> <http://u.example/Person> .
<http://u.example/ann> <http://www.w3.org/1999/02/22-rdf-syntax-ns#type> <http://u.example/Staff> .
",
    };
    comes(&rt, rt.alloc(), row)?;
    Ok(())
}

#[test]
fn a_deleted_class_takes_the_role_that_entails_it(rt: HostRuntime) -> Result<(), Fail> {
    let row = Row {
        words: APPLY,
        files: &[OF_TEACHING, DELETES_PROF],
        status: 0,
        printed: "skipped 0
lost 2
<http://u.example/ann> <http://www.w3.org/1999/02/22-rdf-syntax-ns#type> <http://u.example/Prof> .
<http://u.example/ann> <http://u.example/teaches> <http://u.example/cs1> .
stored 3
<http://u.example/ann> <http://www.w3.org/1999/02/22-rdf-syntax-ns#type> <http://u.example/Person> .
<http://u.example/ann> <http://www.w3.org/1999/02/22-rdf-syntax-ns#type> <http://u.example/Staff> .
<http://u.example/cs1> <http://www.w3.org/1999/02/22-rdf-syntax-ns#type> <http://u.example/Course> .
",
    };
    comes(&rt, rt.alloc(), row)?;
    Ok(())
}

#[test]
fn an_insertion_takes_what_is_disjoint(rt: HostRuntime) -> Result<(), Fail> {
    let row = Row {
        words: APPLY,
        files: &[OF_ANN, INSERTS_STUDENT],
        status: 0,
        printed: "skipped 0
lost 2
<http://u.example/ann> <http://www.w3.org/1999/02/22-rdf-syntax-ns#type> <http://u.example/Staff> .
<http://u.example/ann> <http://www.w3.org/1999/02/22-rdf-syntax-ns#type> <http://u.example/Prof> .
stored 2
<http://u.example/ann> <http://www.w3.org/1999/02/22-rdf-syntax-ns#type> <http://u.example/Person> .
<http://u.example/ann> <http://www.w3.org/1999/02/22-rdf-syntax-ns#type> <http://u.example/Student> .
",
    };
    comes(&rt, rt.alloc(), row)?;
    Ok(())
}

#[test]
fn an_update_that_entails_its_deletion_is_named(rt: HostRuntime) -> Result<(), Fail> {
    let row = Row {
        words: APPLY,
        files: &[
            EMPTY,
            (
                "u.ru",
                &[
                    "INSERT DATA { <http://u.example/bob> a <http://u.example/Prof> } ;
DELETE DATA { <http://u.example/bob> a <http://u.example/Person> }",
                ],
            ),
        ],
        status: 5,
        printed: "error update 0 entails 0 0
<http://u.example/bob> <http://www.w3.org/1999/02/22-rdf-syntax-ns#type> <http://u.example/Prof> .
<http://u.example/bob> <http://www.w3.org/1999/02/22-rdf-syntax-ns#type> <http://u.example/Person> .
",
    };
    comes(&rt, rt.alloc(), row)?;
    Ok(())
}

#[test]
fn an_insertion_that_contradicts_itself_is_named(rt: HostRuntime) -> Result<(), Fail> {
    let row = Row {
        words: APPLY,
        files: &[
            EMPTY,
            (
                "u.ru",
                &[
                    "INSERT DATA { <http://u.example/ann> <http://u.example/mentors> <http://u.example/ann> }",
                ],
            ),
        ],
        status: 5,
        printed: "error update 0 alone 0
<http://u.example/ann> <http://u.example/mentors> <http://u.example/ann> .
",
    };
    comes(&rt, rt.alloc(), row)?;
    Ok(())
}

#[test]
fn assertions_that_contradict_are_told(rt: HostRuntime) -> Result<(), Fail> {
    let row = Row {
        words: APPLY,
        files: &[TORN, DELETES_PROF],
        status: 4,
        printed: "error inconsistent pair
<http://u.example/ann> <http://www.w3.org/1999/02/22-rdf-syntax-ns#type> <http://u.example/Prof> .
<http://u.example/ann> <http://www.w3.org/1999/02/22-rdf-syntax-ns#type> <http://u.example/Student> .
",
    };
    comes(&rt, rt.alloc(), row)?;
    Ok(())
}

#[test]
fn an_unknown_class_is_refused(rt: HostRuntime) -> Result<(), Fail> {
    let row = Row {
        words: APPLY,
        files: &[
            EMPTY,
            (
                "u.ru",
                &["INSERT DATA {\n<http://u.example/ann> a <http://u.example/Dean> }"],
            ),
        ],
        status: 3,
        printed: "error u.ru 21 UnknownTerm line 2\n",
    };
    comes(&rt, rt.alloc(), row)?;
    Ok(())
}

#[test]
fn a_variable_is_refused(rt: HostRuntime) -> Result<(), Fail> {
    let row = Row {
        words: APPLY,
        files: &[
            EMPTY,
            ("u.ru", &["INSERT DATA { ?x a <http://u.example/Prof> }"]),
        ],
        status: 3,
        printed: "error u.ru 23 Variable line 1\n",
    };
    comes(&rt, rt.alloc(), row)?;
    Ok(())
}

#[test]
fn a_specialised_functional_role_is_refused(rt: HostRuntime) -> Result<(), Fail> {
    let row = Row {
        words: &["apply", "o.ofn", "u.ru"],
        files: &[
            (
                "o.ofn",
                &[
                    "Prefix(:=<http://u.example/>)
Ontology(
FunctionalObjectProperty(:p)
SubObjectPropertyOf(:q :p)
)
",
                ],
            ),
            DELETES_PROF,
        ],
        status: 3,
        printed: "error o.ofn 15 FunctionalSpecialised line 4\n",
    };
    comes(&rt, rt.alloc(), row)?;
    Ok(())
}
