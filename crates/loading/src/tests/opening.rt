use super::{BADGE, HEAD_OF, STUDENT, TEACHES, university};
use crate::{LoadRefusal, Opened, open};
use dl_base::{Fact, Name, OutOfMemory, Term, Value};
use std::alloc::Global;
use std::process::Abort;
use std::test::Fail;
use update_engine::Rules;

/// A fact: its term, its subject, and its object, which a class fact leaves empty and which is a string for an attribute.
pub type Line = (u32, &'static str, &'static str);

// Neither sorted nor without repeats.
#[test]
fn consistent_facts_are_opened_as_they_are(rt: HostRuntime) -> Result<(), Fail> {
    let alloc = rt.alloc();
    let lines: &[Line] = &[
        (TEACHES, "ann", "cs1"),
        (STUDENT, "bob", ""),
        (TEACHES, "ann", "cs1"),
    ];
    let it = match answer(&rt, alloc, lines)? {
        Ok(it) => it,
        Err(refusal) => panic!(rt; "{refusal:?}"),
    };
    assert!(rt; are(alloc, it.facts.as_slice(), lines)?, "{:?}", it.facts);
    assert_eq!(rt; it.skipped, 3);
    assert_eq!(rt; it.ontology.axioms().len(), 5);
    assert_eq!(rt; it.rules.ontology().axioms().len(), 5);
    Ok(())
}

// A fact that contradicts the axioms by itself comes before two that do so together, wherever they stand.
#[test]
fn the_first_contradiction_is_named(rt: HostRuntime) -> Result<(), Fail> {
    let alloc = rt.alloc();
    let apart: &[Line] = &[
        (STUDENT, "ann", ""),
        (TEACHES, "bob", "cs1"),
        (TEACHES, "ann", "cs1"),
    ];
    let heads: &[Line] = &[
        (HEAD_OF, "ann", "d1"),
        (HEAD_OF, "ann", "d2"),
        (HEAD_OF, "ann", "d3"),
    ];
    let alone: &[Line] = &[
        (HEAD_OF, "ann", "d1"),
        (HEAD_OF, "ann", "d2"),
        (BADGE, "bob", "x"),
        (HEAD_OF, "cy", "cy"),
    ];
    for (lines, want) in [
        (
            apart,
            &[(STUDENT, "ann", ""), (TEACHES, "ann", "cs1")].as_slice(),
        ),
        (
            heads,
            &[(HEAD_OF, "ann", "d1"), (HEAD_OF, "ann", "d2")].as_slice(),
        ),
        (alone, &[(BADGE, "bob", "x")].as_slice()),
    ] {
        let refusal = match answer(&rt, alloc, lines)? {
            Ok(_) => panic!(rt; "opened"),
            Err(refusal) => refusal,
        };
        let named = match refusal {
            LoadRefusal::Alone(fact) => vec![in alloc; fact]?,
            LoadRefusal::Pair(fact, other) => vec![in alloc; fact, other]?,
            other => panic!(rt; "{other:?}"),
        };
        assert!(rt; are(alloc, named.as_slice(), want)?, "{named:?}");
    }
    Ok(())
}

/// Opens the facts of these lines, three triples having been skipped.
fn answer(
    rt: &impl Abort,
    alloc: Global,
    lines: &[Line],
) -> Result<Result<Opened, LoadRefusal>, Fail> {
    let ontology = university(alloc)?;
    let facts = facts(alloc, lines)?;
    let rules = Rules::compile(alloc, &ontology)?;
    assert!(rt; rules.knows_all(facts.as_slice()));
    Ok(open(alloc, ontology, facts, 3))
}

pub fn facts(alloc: Global, lines: &[Line]) -> Result<Vec<Fact>, OutOfMemory> {
    let mut facts = Vec::new(alloc);
    for line in lines {
        facts.push(fact(alloc, *line)?)?;
    }
    Ok(facts)
}

fn fact(alloc: Global, line: Line) -> Result<Fact, OutOfMemory> {
    let (number, subject, object) = line;
    let subject = Name::of(alloc, subject.as_bytes())?;
    let object = Name::of(alloc, object.as_bytes())?;
    if number < TEACHES {
        return Ok(Fact::Class(Term(number), subject));
    }
    if number < BADGE {
        return Ok(Fact::Role(Term(number), subject, object));
    }
    let value = Value {
        datatype: Name::of(alloc, b"http://www.w3.org/2001/XMLSchema#string")?,
        tag: Name::of(alloc, &[])?,
        text: object,
    };
    Ok(Fact::Attr(Term(number), subject, value))
}

/// Whether the facts are those of the lines.
fn are(alloc: Global, found: &[Fact], lines: &[Line]) -> Result<bool, OutOfMemory> {
    let wanted = facts(alloc, lines)?;
    Ok(wanted.as_slice() == found)
}
