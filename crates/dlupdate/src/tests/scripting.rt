//! Updates one after another over an ontology and a file of facts.

use super::documents::{DELETES_PROF, EMPTY, OF_ANN};
use super::{File, Row, comes};
use std::test::Fail;

const NO_FACTS: File = ("f.nt", &[]);

const INSERTS_PROF: File = (
    "i.ru",
    &["INSERT DATA { <http://u.example/ann> a <http://u.example/Prof> }"],
);

#[test]
fn a_later_update_sees_what_an_earlier_one_stored(rt: HostRuntime) -> Result<(), Fail> {
    let row = Row {
        words: &["script", "u.ofn", "f.nt", "i.ru", "d.ru"],
        files: &[
            EMPTY,
            NO_FACTS,
            INSERTS_PROF,
            (
                "d.ru",
                &["DELETE DATA { <http://u.example/ann> a <http://u.example/Person> }"],
            ),
        ],
        status: 0,
        printed: "update 0
skipped 0
lost 0
update 1
skipped 0
lost 3
<http://u.example/ann> <http://www.w3.org/1999/02/22-rdf-syntax-ns#type> <http://u.example/Person> .
<http://u.example/ann> <http://www.w3.org/1999/02/22-rdf-syntax-ns#type> <http://u.example/Staff> .
<http://u.example/ann> <http://www.w3.org/1999/02/22-rdf-syntax-ns#type> <http://u.example/Prof> .
stored 0
",
    };
    comes(&rt, rt.alloc(), row)?;
    Ok(())
}

#[test]
fn an_update_that_contradicts_itself_ends_a_script(rt: HostRuntime) -> Result<(), Fail> {
    let row = Row {
        words: &["script", "u.ofn", "f.nt", "i.ru", "h.ru"],
        files: &[
            EMPTY,
            NO_FACTS,
            INSERTS_PROF,
            (
                "h.ru",
                &[
                    "INSERT DATA { <http://u.example/ann> <http://u.example/headOf> <http://u.example/d1> , <http://u.example/d2> }",
                ],
            ),
        ],
        status: 5,
        printed: "update 0
skipped 0
lost 0
error update 1 pair 0 1
<http://u.example/ann> <http://u.example/headOf> <http://u.example/d1> .
<http://u.example/ann> <http://u.example/headOf> <http://u.example/d2> .
",
    };
    comes(&rt, rt.alloc(), row)?;
    Ok(())
}

#[test]
fn what_was_printed_stands_before_a_refusal(rt: HostRuntime) -> Result<(), Fail> {
    let row = Row {
        words: &["script", "u.ofn", "f.nt", "u.ru", "none.ru"],
        files: &[OF_ANN, NO_FACTS, DELETES_PROF],
        status: 3,
        printed: "update 0
skipped 0
lost 1
<http://u.example/ann> <http://www.w3.org/1999/02/22-rdf-syntax-ns#type> <http://u.example/Prof> .
error none.ru 31 Missing
",
    };
    comes(&rt, rt.alloc(), row)?;
    Ok(())
}
