mod forms;
mod lists_and_lines;
mod refusals;

use crate::{ReadUpdate, read_update};
use dl_base::{Fact, Kind, Name, Ontology, Value};
use dl_text::ReadRefusal;
use std::alloc::Global;
use std::test::Fail;

/// Two classes, a role, two attributes and an annotation property, numbered from 0.
fn school(alloc: Global) -> Result<Ontology, Fail> {
    let mut terms = Vec::new(alloc);
    for (name, kind) in [
        ("http://u.example/Prof", Kind::Class),
        ("http://u.example/Student", Kind::Class),
        ("http://u.example/teaches", Kind::Role),
        ("http://u.example/badge", Kind::Attr),
        ("http://u.example/motto", Kind::Attr),
        ("http://u.example/note", Kind::Note),
    ] {
        terms.push((Name::of(alloc, name.as_bytes())?, kind))?;
    }
    Ok(Ontology::of(alloc, terms, Vec::new(alloc))?)
}

/// Writes the bytes without this front.
fn short(bytes: &[u8], front: &[u8], out: &mut Vec<u8>) -> Result<(), Fail> {
    match bytes.strip_prefix(front) {
        Some(rest) => out.extend_from_slice(rest)?,
        None => out.extend_from_slice(bytes)?,
    }
    Ok(())
}

fn show_name(name: &Name, out: &mut Vec<u8>) -> Result<(), Fail> {
    short(name.as_slice(), b"http://u.example/", out)
}

/// The text, and behind it the tag or the datatype.
fn show_value(value: &Value, out: &mut Vec<u8>) -> Result<(), Fail> {
    out.extend_from_slice(value.text.as_slice())?;
    if !value.tag.as_slice().is_empty() {
        out.push(b'@')?;
        out.extend_from_slice(value.tag.as_slice())?;
        return Ok(());
    }
    out.push(b'^')?;
    let datatype = value.datatype.as_slice();
    short(datatype, b"http://www.w3.org/2001/XMLSchema#", out)
}

/// The number of the fact's term, and in parentheses what it is about.
fn show(alloc: Global, fact: &Fact, out: &mut Vec<u8>) -> Result<(), Fail> {
    let term = match fact {
        Fact::Class(term, _) | Fact::Role(term, _, _) | Fact::Attr(term, _, _) => *term,
    };
    let number = format!(in alloc; "{}(", term.0)?;
    out.extend_from_slice(number.as_bytes())?;
    match fact {
        Fact::Class(_, a) => show_name(a, out)?,
        Fact::Role(_, a, b) => {
            show_name(a, out)?;
            out.push(b',')?;
            show_name(b, out)?;
        }
        Fact::Attr(_, a, v) => {
            show_name(a, out)?;
            out.push(b',')?;
            show_value(v, out)?;
        }
    }
    out.push(b')')?;
    Ok(())
}

fn show_update(alloc: Global, update: &ReadUpdate, out: &mut Vec<u8>) -> Result<(), Fail> {
    for fact in update.inserts.as_slice() {
        out.push(b'+')?;
        show(alloc, fact, out)?;
    }
    for fact in update.deletes.as_slice() {
        out.push(b'-')?;
        show(alloc, fact, out)?;
    }
    if update.skipped > 0 {
        let text = format!(in alloc; "~{}", update.skipped)?;
        out.extend_from_slice(text.as_bytes())?;
    }
    Ok(())
}

/// The facts of the text, each insertion behind `+` and each deletion behind `-`, and the number of skipped triples behind `~`;
/// or the refusal as `Kind LINE`.
pub fn told(alloc: Global, ontology: &Ontology, bytes: &[u8]) -> Result<Vec<u8>, Fail> {
    let mut out = Vec::new(alloc);
    match read_update(alloc, bytes, ontology) {
        Ok(update) => show_update(alloc, &update, &mut out)?,
        Err(ReadRefusal::Refused { line, kind }) => {
            let text = format!(in alloc; "{} {}", kind.name(), line)?;
            out.extend_from_slice(text.as_bytes())?;
        }
        Err(ReadRefusal::OutOfMemory) => out.extend_from_slice(b"out of memory")?,
    }
    Ok(out)
}
