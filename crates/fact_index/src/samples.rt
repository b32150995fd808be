//! Facts and patterns that the tests speak of.
use dl_base::{Fact, Name, OutOfMemory, Pattern, Term, Value};
use std::alloc::Global;

/// A fact: its term, its subject, and its object, which a class fact leaves empty. Term 0 is a class, 1 a role and 2 an attribute.
pub type Line = (u32, &'static str, &'static str);

pub const LINES: [Line; 8] = [
    (0, "a", ""),
    (0, "b", ""),
    (1, "a", "b"),
    (1, "a", "c"),
    (1, "b", "c"),
    (2, "a", "1"),
    (2, "b", "1"),
    (2, "b", "2"),
];

/// Of the fourteen patterns which of the lines they ask for, as `x` or `.`.
pub const ASKED: [&'static str; 14] = [
    "xx......", ".x......", "..xxx...", "..xx....", "...xx...", "..x.....", "...x....", "....x...",
    ".....xxx", "......xx", ".....xx.", ".......x", "......x.", "........",
];

fn name(alloc: Global, text: &str) -> Result<Name, OutOfMemory> {
    Name::of(alloc, text.as_bytes())
}

/// The value of this text, of datatype `string` and without a tag.
fn value(alloc: Global, text: &str) -> Result<Value, OutOfMemory> {
    Ok(Value {
        datatype: name(alloc, "string")?,
        tag: name(alloc, "")?,
        text: name(alloc, text)?,
    })
}

pub fn fact(alloc: Global, line: Line) -> Result<Fact, OutOfMemory> {
    let (term, subject, object) = line;
    let subject = name(alloc, subject)?;
    match term {
        0 => Ok(Fact::Class(Term(term), subject)),
        1 => Ok(Fact::Role(Term(term), subject, name(alloc, object)?)),
        _ => Ok(Fact::Attr(Term(term), subject, value(alloc, object)?)),
    }
}

/// The facts of these lines.
pub fn facts(alloc: Global, lines: &[Line]) -> Result<Vec<Fact>, OutOfMemory> {
    let mut facts = Vec::new(alloc);
    for line in lines {
        facts.push(fact(alloc, *line)?)?;
    }
    Ok(facts)
}

/// The pattern of this number: each of the thirteen forms, and last one of an unknown name.
pub fn pattern(alloc: Global, number: usize) -> Result<Pattern, OutOfMemory> {
    match number {
        0 => Ok(Pattern::Class(Term(0))),
        1 => Ok(Pattern::ClassOf(Term(0), name(alloc, "b")?)),
        2 => Ok(Pattern::Role(Term(1))),
        3 => Ok(Pattern::RoleFrom(Term(1), name(alloc, "a")?)),
        4 => Ok(Pattern::RoleTo(Term(1), name(alloc, "c")?)),
        5..=7 => of_role(alloc, number),
        8..=12 => of_attr(alloc, number),
        _ => Ok(Pattern::RoleFrom(Term(1), name(alloc, "z")?)),
    }
}

fn of_role(alloc: Global, number: usize) -> Result<Pattern, OutOfMemory> {
    let (subject, object) = match number {
        7 => ("c", "a"),
        _ => ("a", "b"),
    };
    let (one, other) = (name(alloc, subject)?, name(alloc, object)?);
    match number {
        5 => Ok(Pattern::RoleBoth(Term(1), one, other)),
        6 => Ok(Pattern::RoleFromExcept(Term(1), one, other)),
        _ => Ok(Pattern::RoleToExcept(Term(1), one, other)),
    }
}

fn of_attr(alloc: Global, number: usize) -> Result<Pattern, OutOfMemory> {
    match number {
        8 => return Ok(Pattern::Attr(Term(2))),
        9 => return Ok(Pattern::AttrOf(Term(2), name(alloc, "b")?)),
        10 => return Ok(Pattern::AttrValue(Term(2), value(alloc, "1")?)),
        _ => {}
    }
    let (subject, two) = (name(alloc, "b")?, value(alloc, "2")?);
    match number {
        11 => Ok(Pattern::AttrBoth(Term(2), subject, two)),
        _ => Ok(Pattern::AttrOfExcept(Term(2), subject, two)),
    }
}
