//! Names, values and facts that the tests speak of.
use crate::memory::OutOfMemory;
use crate::names::{Name, Value};
use crate::statements::Fact;
use crate::terms::Term;
use std::alloc::Global;

/// A fact: its term, its subject, and its object, which a class fact leaves empty. Term 0 is a class, 1 a role and 2 an attribute.
pub type Line = (u32, &'static str, &'static str);

/// The name of this text.
pub fn name(alloc: Global, text: &str) -> Result<Name, OutOfMemory> {
    Name::of(alloc, text.as_bytes())
}

/// The value of this text, of datatype `string` and without a tag.
pub fn value(alloc: Global, text: &str) -> Result<Value, OutOfMemory> {
    Ok(Value {
        datatype: name(alloc, "string")?,
        tag: name(alloc, "")?,
        text: name(alloc, text)?,
    })
}

pub fn fact(alloc: Global, line: Line) -> Result<Fact, OutOfMemory> {
    let (term, subject, object) = line;
    let subject = name(alloc, subject)?;
    match term {
        0 => Ok(Fact::Class(Term(term), subject)),
        1 => Ok(Fact::Role(Term(term), subject, name(alloc, object)?)),
        _ => Ok(Fact::Attr(Term(term), subject, value(alloc, object)?)),
    }
}

/// The facts of these lines.
pub fn facts(alloc: Global, lines: &[Line]) -> Result<Vec<Fact>, OutOfMemory> {
    let mut facts = Vec::new(alloc);
    for line in lines {
        facts.push(fact(alloc, *line)?)?;
    }
    Ok(facts)
}
