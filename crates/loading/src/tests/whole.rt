use crate::{LoadRefusal, Opened, load};
use dl_text::ReadRefusal;
use std::alloc::Global;
use std::process::Abort;
use std::test::Fail;

const ONTOLOGY: &str = "Prefix(:=<u:>)
Ontology(
DisjointClasses(:Student :Prof)
ObjectPropertyDomain(:teaches :Prof)
ClassAssertion(:Student :ann)
)
";

/// An ontology's text, a file's, and what is told of them.
type Row = (&'static str, &'static str, &'static str);

#[test]
fn an_ontology_is_opened_with_its_file(rt: HostRuntime) -> Result<(), Fail> {
    let alloc = rt.alloc();
    let rows: &[Row] = &[
        (ONTOLOGY, "", "facts 1 skipped 0"),
        (
            ONTOLOGY,
            "<u:bob> <u:teaches> <u:cs1> .\n<u:bob> <http://www.w3.org/2000/01/rdf-schema#label> \"Bob\" .",
            "facts 2 skipped 1",
        ),
        // The ontology is refused before the file.
        ("Ontology(\nSubClassOf(:A :B)\n)", "<u:ann>", "ontology 2"),
        (ONTOLOGY, "\n<u:ann>", "facts 2"),
        (ONTOLOGY, "<u:ann> <u:teaches> <u:cs1> .", "pair"),
    ];
    for row in rows {
        told_so(&rt, alloc, *row)?;
    }
    Ok(())
}

fn told_so(rt: &impl Abort, alloc: Global, row: Row) -> Result<(), Fail> {
    let (ontology, bytes, want) = row;
    let told = match load(alloc, ontology.as_bytes(), bytes.as_bytes()) {
        Ok(opened) => opened_told(alloc, &opened)?,
        Err(refusal) => refusal_told(alloc, &refusal)?,
    };
    assert_eq!(rt; told.as_str(), want);
    Ok(())
}

/// How many facts there are, and how many triples were skipped.
fn opened_told(alloc: Global, opened: &Opened) -> Result<String, Fail> {
    Ok(format!(in alloc; "facts {} skipped {}", opened.facts.len(), opened.skipped)?)
}

/// Which text is refused and at which line, or how the facts contradict the axioms.
fn refusal_told(alloc: Global, refusal: &LoadRefusal) -> Result<String, Fail> {
    match refusal {
        LoadRefusal::Ontology(ReadRefusal::Refused { line, kind: _ }) => {
            Ok(format!(in alloc; "ontology {line}")?)
        }
        LoadRefusal::Facts(ReadRefusal::Refused { line, kind: _ }) => {
            Ok(format!(in alloc; "facts {line}")?)
        }
        LoadRefusal::Alone(_) => Ok(format!(in alloc; "alone")?),
        LoadRefusal::Pair(_, _) => Ok(format!(in alloc; "pair")?),
        other => Ok(format!(in alloc; "{other:?}")?),
    }
}
