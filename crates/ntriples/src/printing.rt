ghost use Rattle.std.specs.Prelude.{◌≡◌, ◌≤◌, ◌^◌, ◌++◌, ◌∷◌, [], length, OnOk, IfOk};
ghost use Rattle.dl_text.specs.Printing.{written, written_byte};
ghost use Rattle.ntriples.specs.Printing.{iri, behind, datatype_of, literal, triple, name_of, line, lines};
ghost use Rattle.triples.specs.Names.{rdf_type};

use dl_base::{Fact, Ontology, OutOfMemory, Term, Value};
use dl_text::xsd_string;
use std::alloc::Global;
use triples::rdf_type;

/// A line for each fact, in order: subject, predicate and object with single spaces, a point and LF. A class fact has the predicate
/// `rdf:type`; `xsd:string` isn't printed, a language tag is (RDF 1.1 N-Triples, in its canonical form but for these escapes alone:
/// `\"`, `\\`, `\n` and `\r`).
pub fn print_facts(
    alloc: Global,
    facts: &[Fact],
    ontology: &Ontology,
) -> Result<Vec<u8>, OutOfMemory>
    ensures { IfOk result (λ text. text.items ≡ lines ontology.now facts.now) }
{
    let mut text = Vec::new(alloc);
    for fact in facts {
        push_line(&mut text, fact, ontology)?;
    }
    Ok(text)
}

/// Appends the line of the fact.
pub fn push_line(text: &mut Vec<u8>, fact: &Fact, ontology: &Ontology) -> Result<(), OutOfMemory>
    ensures { OnOk result (text.new.items ≡ text.old.items ++ line ontology.now fact.now) }
{
    match fact {
        Fact::Class(class, a) => push_link(text, a.as_slice(), rdf_type(), name(ontology, *class)),
        Fact::Role(role, a, b) => {
            push_link(text, a.as_slice(), name(ontology, *role), b.as_slice())
        }
        Fact::Attr(attr, a, value) => {
            push_value(text, a.as_slice(), name(ontology, *attr), value)
        }
    }
}

/// Appends the triple of three IRIs.
fn push_link(
    text: &mut Vec<u8>,
    subject: &[u8],
    predicate: &[u8],
    object: &[u8],
) -> Result<(), OutOfMemory>
    ensures { OnOk result (text.new.items ≡ text.old.items ++ triple subject.now predicate.now (iri object.now)) }
{
    push_start(text, subject, predicate)?;
    push_iri(text, object)?;
    text.extend_from_slice(b" .\n")?;
    Ok(())
}

/// Appends the triple of two IRIs and a literal.
fn push_value(
    text: &mut Vec<u8>,
    subject: &[u8],
    predicate: &[u8],
    value: &Value,
) -> Result<(), OutOfMemory>
    ensures { OnOk result (text.new.items ≡ text.old.items ++ triple subject.now predicate.now (literal value.now)) }
{
    push_start(text, subject, predicate)?;
    push_literal(text, value)?;
    text.extend_from_slice(b" .\n")?;
    Ok(())
}

/// The bytes of the term's name, none where it is out of range.
pub fn name(ontology: &Ontology, term: Term) -> &[u8]
    ensures value { result.now ≡ name_of ontology.now term }
    ensures short { length result.now ≤ 2 ^ 28 }
{
    match ontology.name(term) {
        Some(name) => name.as_slice(),
        None => b"",
    }
}

/// Appends subject and predicate, each with a space behind it.
fn push_start(text: &mut Vec<u8>, subject: &[u8], predicate: &[u8]) -> Result<(), OutOfMemory>
    ensures { OnOk result (text.new.items ≡ text.old.items ++ (iri subject.now ++ 32 ∷ (iri predicate.now ++ 32 ∷ []))) }
{
    push_iri(text, subject)?;
    text.push(b' ')?;
    push_iri(text, predicate)?;
    text.push(b' ')?;
    Ok(())
}

fn push_iri(text: &mut Vec<u8>, name: &[u8]) -> Result<(), OutOfMemory>
    ensures { OnOk result (text.new.items ≡ text.old.items ++ iri name.now) }
{
    text.push(b'<')?;
    text.extend_from_slice(name)?;
    text.push(b'>')?;
    Ok(())
}

fn push_literal(text: &mut Vec<u8>, value: &Value) -> Result<(), OutOfMemory>
    ensures { OnOk result (text.new.items ≡ text.old.items ++ literal value.now) }
{
    text.push(b'"')?;
    push_written(text, value.text.as_slice())?;
    text.push(b'"')?;
    push_behind(text, value)?;
    Ok(())
}

/// Appends the text of a literal with its escapes.
fn push_written(text: &mut Vec<u8>, raw: &[u8]) -> Result<(), OutOfMemory>
    ensures { OnOk result (text.new.items ≡ text.old.items ++ written raw.now) }
{
    for b in raw {
        push_byte(text, *b)?;
    }
    Ok(())
}

fn push_byte(text: &mut Vec<u8>, b: u8) -> Result<(), OutOfMemory>
    ensures { OnOk result (text.new.items ≡ text.old.items ++ written_byte b) }
{
    match b {
        b'"' => text.extend_from_slice(b"\\\"")?,
        b'\\' => text.extend_from_slice(b"\\\\")?,
        b'\n' => text.extend_from_slice(b"\\n")?,
        b'\r' => text.extend_from_slice(b"\\r")?,
        other => text.push(other)?,
    }
    Ok(())
}

/// Appends what stands behind a literal's text.
fn push_behind(text: &mut Vec<u8>, value: &Value) -> Result<(), OutOfMemory>
    ensures { OnOk result (text.new.items ≡ text.old.items ++ behind value.now) }
{
    let tag = value.tag.as_slice();
    if tag.is_empty() {
        push_datatype(text, value.datatype.as_slice())
    } else {
        text.push(b'@')?;
        text.extend_from_slice(tag)?;
        Ok(())
    }
}

/// Appends the datatype, if it isn't `xsd:string`.
fn push_datatype(text: &mut Vec<u8>, datatype: &[u8]) -> Result<(), OutOfMemory>
    ensures { OnOk result (text.new.items ≡ text.old.items ++ datatype_of datatype.now) }
{
    if datatype == xsd_string() {
        Ok(())
    } else {
        text.extend_from_slice(b"^^")?;
        push_iri(text, datatype)?;
        Ok(())
    }
}
