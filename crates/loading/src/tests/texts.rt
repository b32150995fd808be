use super::university;
use crate::{LoadRefusal, Opened, load_over};
use dl_base::Fact;
use dl_text::ReadRefusal;
use ntriples::print_facts;
use std::alloc::Global;
use std::process::Abort;
use std::test::Fail;

/// How many triples were skipped before, the given facts, and those of the file; and what is told of them.
type Row = (u64, &'static str, &'static str, &'static str);

#[test]
fn texts_are_opened(rt: HostRuntime) -> Result<(), Fail> {
    let alloc = rt.alloc();
    let rows: &[Row] = &[
        (0, "", "", "0"),
        (0, "", "<u:ann> <u:note> \"x\" .", "1"),
        (
            0,
            "",
            "<u:bob> <u:headOf> <u:d1> .\n# twice\n<u:ann> <u:teaches> <u:cs1> .\n<u:bob> <u:headOf> <u:d1> .\n",
            "<u:bob> <u:headOf> <u:d1> .\n<u:ann> <u:teaches> <u:cs1> .\n0",
        ),
        (
            7,
            "<u:bob> <u:headOf> <u:d1> .\n<u:bob> <u:note> \"x\" .",
            "<u:ann> <u:note> \"x\" .\n<u:ann> <u:teaches> <u:cs1> .\n<u:bob> <u:headOf> <u:d1> .\n<u:ann> <u:note> \"x\" .",
            "<u:bob> <u:headOf> <u:d1> .\n<u:ann> <u:teaches> <u:cs1> .\n10",
        ),
    ];
    for row in rows {
        told_so(&rt, alloc, *row)?;
    }
    Ok(())
}

// More skipped triples than 64 bits count are want of memory.
#[test]
fn skipped_triples_are_counted_to_the_end(rt: HostRuntime) -> Result<(), Fail> {
    let alloc = rt.alloc();
    let note = "<u:ann> <u:note> <u:bob> .";
    let last = u64::MAX - 1;
    told_so(&rt, alloc, (last, "", note, "18446744073709551615"))?;
    told_so(&rt, alloc, (last, note, note, "out of memory"))?;
    Ok(())
}

#[test]
fn a_file_is_refused_as_its_reader_says(rt: HostRuntime) -> Result<(), Fail> {
    let alloc = rt.alloc();
    let rows: &[Row] = &[
        (
            0,
            "",
            "<u:ann> <u:teaches> <u:cs1> .\n<u:ann> <u:teaches>",
            "Syntax 2",
        ),
        (0, "", "_:ann <u:teaches> <u:cs1> .", "BlankNode 1"),
        (0, "", "\n\n<u:ann> <u:leads> <u:cs1> .", "UnknownTerm 3"),
        (0, "", "<u:ann> <u:badge> <u:cs1> .", "WrongKind 1"),
        // The facts before the bad line contradict the axioms, and the line comes first.
        (
            0,
            "",
            "<u:ann> <u:headOf> <u:ann> .\n<u:ann> <u:teaches>",
            "Syntax 2",
        ),
    ];
    for row in rows {
        told_so(&rt, alloc, *row)?;
    }
    Ok(())
}

#[test]
fn facts_that_contradict_the_axioms_are_refused(rt: HostRuntime) -> Result<(), Fail> {
    let alloc = rt.alloc();
    let rows: &[Row] = &[
        (
            0,
            "",
            "<u:ann> <u:badge> \"x\" .",
            "alone <u:ann> <u:badge> \"x\" .\n",
        ),
        (
            0,
            "",
            "<u:ann> <u:headOf> <u:d1> .\n<u:ann> <u:headOf> <u:d2> .\n<u:bob> <u:headOf> <u:bob> .\n<u:cy> <u:badge> \"x\" .",
            "alone <u:bob> <u:headOf> <u:bob> .\n",
        ),
        (
            0,
            "<u:ann> <u:headOf> <u:d1> .\n<u:bob> <u:headOf> <u:d1> .",
            "<u:bob> <u:headOf> <u:d2> .\n<u:bob> <u:headOf> <u:d3> .",
            "pair <u:bob> <u:headOf> <u:d1> .\n<u:bob> <u:headOf> <u:d2> .\n",
        ),
        (
            0,
            "<u:ann> <u:teaches> <u:cs1> .",
            "<u:ann> <http://www.w3.org/1999/02/22-rdf-syntax-ns#type> <u:Student> .",
            "pair <u:ann> <u:teaches> <u:cs1> .\n<u:ann> <http://www.w3.org/1999/02/22-rdf-syntax-ns#type> <u:Student> .\n",
        ),
    ];
    for row in rows {
        told_so(&rt, alloc, *row)?;
    }
    Ok(())
}

/// Opens the given facts, which are opened without a file themselves, and those of the file.
fn told_so(rt: &impl Abort, alloc: Global, row: Row) -> Result<(), Fail> {
    let (before, given, text, want) = row;
    let ontology = university(alloc)?;
    let given = match load_over(alloc, ontology.copy(alloc)?, &[], before, given.as_bytes()) {
        Ok(given) => given,
        Err(refusal) => panic!(rt; "{refusal:?}"),
    };
    let found = load_over(
        alloc,
        ontology,
        given.facts.as_slice(),
        given.skipped,
        text.as_bytes(),
    );
    let told = match found {
        Ok(opened) => opened_told(alloc, &opened)?,
        Err(refusal) => refusal_told(alloc, &refusal)?,
    };
    assert_eq!(rt; told.as_str(), want);
    Ok(())
}

/// The lines of the facts, and the number of skipped triples.
fn opened_told(alloc: Global, opened: &Opened) -> Result<String, Fail> {
    let lines = lines_of(alloc, opened.facts.as_slice())?;
    Ok(format!(in alloc; "{}{}", lines, opened.skipped)?)
}

/// The lines of the facts that contradict the axioms, or the kind of the file's refusal and its line.
fn refusal_told(alloc: Global, refusal: &LoadRefusal) -> Result<String, Fail> {
    match refusal {
        LoadRefusal::Alone(fact) => { Ok(format!(in alloc; "alone {}", line_of(alloc, fact)?)?) }
        LoadRefusal::Pair(fact, other) => {
            Ok(format!(in alloc; "pair {}{}", line_of(alloc, fact)?, line_of(alloc, other)?)?)
        }
        LoadRefusal::Facts(ReadRefusal::Refused { line, kind }) => {
            Ok(format!(in alloc; "{} {}", kind.name(), line)?)
        }
        LoadRefusal::OutOfMemory => Ok(format!(in alloc; "out of memory")?),
        other => Ok(format!(in alloc; "{other:?}")?),
    }
}

fn line_of(alloc: Global, fact: &Fact) -> Result<String, Fail> {
    let facts = vec![in alloc; fact.copy(alloc)?]?;
    lines_of(alloc, facts.as_slice())
}

fn lines_of(alloc: Global, facts: &[Fact]) -> Result<String, Fail> {
    let ontology = university(alloc)?;
    let lines = print_facts(alloc, facts, &ontology)?;
    Ok(String::from_utf8(lines).ok().ok_or("UTF-8")?)
}
