//! A small ontology, its facts, and what each of them entails.
ghost use Rattle.std.specs.Prelude.{◌≡◌, IfOk};

use crate::entailers::Entailers;
use dl_base::{
    Axiom, Basic, Fact, Kind, Name, Ontology, OutOfMemory, Pattern, RoleSide, Term, Value,
};
use std::alloc::Global;
use std::test::Fail;
use tbox_closure::close;

/// A fact: its term, its subject, and its object, which a class fact leaves empty.
pub type Line = (u32, &'static str, &'static str);

const TERMS: [(&str, Kind); 8] = [
    ("person", Kind::Class),
    ("teacher", Kind::Class),
    ("course", Kind::Class),
    ("teaches", Kind::Role),
    ("taught by", Kind::Role),
    ("knows", Kind::Role),
    ("badge", Kind::Attr),
    ("number", Kind::Attr),
];

/// Each fact, and what it entails, in order: teachers are persons, who teaches is a teacher, what is taught is a course and taught by them;
/// to know is symmetric; a badge is a number, and who has one is a person.
pub const ROWS: [(Line, &[Line]); 7] = [
    ((0, "ann", ""), &[(0, "ann", "")]),
    ((1, "ann", ""), &[(0, "ann", ""), (1, "ann", "")]),
    (
        (3, "ann", "cs1"),
        &[
            (0, "ann", ""),
            (1, "ann", ""),
            (2, "cs1", ""),
            (3, "ann", "cs1"),
            (4, "cs1", "ann"),
        ],
    ),
    ((4, "cs1", "ann"), &[(4, "cs1", "ann")]),
    ((5, "ann", "bob"), &[(5, "ann", "bob"), (5, "bob", "ann")]),
    ((5, "ann", "ann"), &[(5, "ann", "ann")]),
    (
        (6, "ann", "7"),
        &[(0, "ann", ""), (6, "ann", "7"), (7, "ann", "7")],
    ),
];

fn class(number: u32) -> Basic {
    Basic::Class(Term(number))
}

fn direct(number: u32) -> RoleSide {
    RoleSide::Direct(Term(number))
}

fn inverse(number: u32) -> RoleSide {
    RoleSide::Inverse(Term(number))
}

/// What single facts entail under the ontology.
pub fn entailers(alloc: Global, ontology: &Ontology) -> Result<Entailers, OutOfMemory>
    ensures { IfOk result (λ entailers. entailers ≡ ontology.now) }
{
    let implied = close(alloc, ontology)?;
    let entailers = Entailers::compile(&implied)?;
    Ok(entailers)
}

/// The ontology of the rows.
pub fn ontology(alloc: Global) -> Result<Ontology, Fail> {
    let mut terms = Vec::new(alloc);
    for (name, kind) in TERMS {
        terms.push((Name::of(alloc, name.as_bytes())?, kind))?;
    }
    let axioms = vec![in alloc;
        Axiom::ConceptIn(class(1), class(0)),
        Axiom::ConceptIn(Basic::Exists(direct(3)), class(1)),
        Axiom::ConceptIn(Basic::Exists(inverse(3)), class(2)),
        Axiom::RoleIn(direct(3), inverse(4)),
        Axiom::RoleIn(direct(5), inverse(5)),
        Axiom::AttrIn(Term(6), Term(7)),
        Axiom::ConceptIn(Basic::Domain(Term(6)), class(0)),
    ]?;
    Ok(Ontology::of(alloc, terms, axioms)?)
}

pub fn fact(alloc: Global, line: Line) -> Result<Fact, OutOfMemory> {
    let (number, subject, object) = line;
    let subject = Name::of(alloc, subject.as_bytes())?;
    match number {
        0..=2 => Ok(Fact::Class(Term(number), subject)),
        3..=5 => Ok(Fact::Role(Term(number), subject, Name::of(alloc, object.as_bytes())?)),
        _ => Ok(Fact::Attr(Term(number), subject, value(alloc, object)?)),
    }
}

fn value(alloc: Global, text: &str) -> Result<Value, OutOfMemory> {
    Ok(Value {
        datatype: Name::of(alloc, b"string")?,
        tag: Name::of(alloc, b"")?,
        text: Name::of(alloc, text.as_bytes())?,
    })
}

/// The facts of these lines.
pub fn facts(alloc: Global, lines: &[Line]) -> Result<Vec<Fact>, OutOfMemory> {
    let mut facts = Vec::new(alloc);
    for line in lines {
        facts.push(fact(alloc, *line)?)?;
    }
    Ok(facts)
}

/// Of each pattern, by number, which facts of the rows entail one that it asks for, as `x` or `.`.
pub const ASKED: [&str; 13] = [
    "xxx...x", "..x....", "..xx...", "..xx...", "....xx.", "....x..", ".....x.", "....x..",
    "......x", ".......", "......x", "......x", ".......",
];

/// The patterns, one of each form.
pub fn pattern(alloc: Global, form: usize) -> Result<Pattern, OutOfMemory> {
    match form {
        0 => Ok(Pattern::Class(Term(0))),
        1 => Ok(Pattern::ClassOf(Term(2), Name::of(alloc, b"cs1")?)),
        2 => Ok(Pattern::Role(Term(4))),
        3..=7 => of_role(alloc, form),
        _ => of_attr(alloc, form),
    }
}

fn of_role(alloc: Global, form: usize) -> Result<Pattern, OutOfMemory> {
    let (ann, bob) = (Name::of(alloc, b"ann")?, Name::of(alloc, b"bob")?);
    match form {
        3 => Ok(Pattern::RoleFrom(Term(4), Name::of(alloc, b"cs1")?)),
        4 => Ok(Pattern::RoleTo(Term(5), ann)),
        5 => Ok(Pattern::RoleBoth(Term(5), bob, ann)),
        6 => Ok(Pattern::RoleFromExcept(Term(5), ann, bob)),
        _ => Ok(Pattern::RoleToExcept(Term(5), ann.copy(alloc)?, ann)),
    }
}

fn of_attr(alloc: Global, form: usize) -> Result<Pattern, OutOfMemory> {
    let (ann, seven) = (Name::of(alloc, b"ann")?, value(alloc, "7")?);
    match form {
        8 => Ok(Pattern::Attr(Term(7))),
        9 => Ok(Pattern::AttrOf(Term(7), Name::of(alloc, b"bob")?)),
        10 => Ok(Pattern::AttrValue(Term(7), seven)),
        11 => Ok(Pattern::AttrBoth(Term(7), ann, seven)),
        _ => Ok(Pattern::AttrOfExcept(Term(7), ann, seven)),
    }
}
