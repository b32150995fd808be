use super::small;
use crate::{
    line_length, print_facts, printed_reads, push_line, read_facts, reads_one, write_line,
};
use dl_base::{Fact, Name, Term, Value};
use dl_io::{MemorySink, WriteFault};
use std::alloc::Global;
use std::test::Fail;

fn value(alloc: Global, datatype: &str, tag: &str, text: &str) -> Result<Value, Fail> {
    Ok(Value {
        datatype: Name::of(alloc, datatype.as_bytes())?,
        tag: Name::of(alloc, tag.as_bytes())?,
        text: Name::of(alloc, text.as_bytes())?,
    })
}

/// A fact of each kind, and a value of each form.
fn facts(alloc: Global) -> Result<Vec<Fact>, Fail> {
    let mut facts = Vec::new(alloc);
    let subject = Name::of(alloc, b"u:a")?;
    facts.push(Fact::Class(Term(0), Name::of(alloc, "u:é".as_bytes())?))?;
    facts.push(Fact::Role(Term(1), Name::of(alloc, b"u:b")?, Name::of(alloc, b"u:a")?))?;
    for (datatype, tag, text) in [
        (
            "http://www.w3.org/2001/XMLSchema#string",
            "",
            "\"\\\n\r\t'\u{1D11E}",
        ),
        (
            "http://www.w3.org/1999/02/22-rdf-syntax-ns#langString",
            "en-x1",
            "\\",
        ),
        ("http://www.w3.org/2001/XMLSchema#integer", "", "-7"),
    ] {
        facts.push(Fact::Attr(
            Term(2),
            subject.copy(alloc)?,
            value(alloc, datatype, tag, text)?,
        ))?;
    }
    Ok(facts)
}

const LINES: &str = "<u:é> <http://www.w3.org/1999/02/22-rdf-syntax-ns#type> <u:C> .
<u:b> <u:p> <u:a> .
<u:a> <u:u> \"\\\"\\\\\\n\\r\t'\u{1D11E}\" .
<u:a> <u:u> \"\\\\\"@en-x1 .
<u:a> <u:u> \"-7\"^^<http://www.w3.org/2001/XMLSchema#integer> .
";

#[test]
fn facts_are_printed_and_read_again(rt: HostRuntime) -> Result<(), Fail> {
    let alloc = rt.alloc();
    let ontology = small(alloc)?;
    let facts = facts(alloc)?;
    let text = print_facts(alloc, facts.as_slice(), &ontology)?;
    assert_eq!(rt; text.as_slice(), LINES.as_bytes());
    let read = read_facts(alloc, text.as_slice(), &ontology)
        .ok()
        .ok_or("refused")?;
    assert_eq!(rt; read.facts.as_slice(), facts.as_slice());
    assert_eq!(rt; read.skipped, 0);
    Ok(())
}

#[test]
fn facts_are_written_and_measured(rt: HostRuntime) -> Result<(), Fail> {
    let alloc = rt.alloc();
    let ontology = small(alloc)?;
    let facts = facts(alloc)?;
    let mut sink = MemorySink::new(alloc, LINES.len(), Vec::new(alloc))?;
    let mut length = 0;
    for fact in facts.as_slice() {
        assert_eq!(rt; write_line(fact, &ontology, &mut sink), Ok(()));
        length = line_length(fact, &ontology).wrapping_add(length);
    }
    assert_eq!(rt; sink.bytes(), LINES.as_bytes());
    assert_eq!(rt; length, LINES.len());
    Ok(())
}

#[test]
fn a_failed_write_leaves_a_front(rt: HostRuntime) -> Result<(), Fail> {
    let alloc = rt.alloc();
    let ontology = small(alloc)?;
    let fact = Fact::Attr(
        Term(2),
        Name::of(alloc, b"u:a")?,
        value(alloc, "http://www.w3.org/2001/XMLSchema#string", "", "a\nb")?,
    );
    let mut line = Vec::new(alloc);
    push_line(&mut line, &fact, &ontology)?;
    assert_eq!(rt; line.as_slice(), b"<u:a> <u:u> \"a\\nb\" .\n".as_slice());
    for capacity in 0..22 {
        let mut sink = MemorySink::new(alloc, capacity, Vec::new(alloc))?;
        let answer = write_line(&fact, &ontology, &mut sink);
        assert_eq!(rt; answer.is_ok(), capacity == 21);
        assert!(rt; line.starts_with(sink.bytes()));
    }
    Ok(())
}

#[test]
fn laws_hold(_rt: HostRuntime) {
    reads_one();
    printed_reads();
}
