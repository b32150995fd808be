//! The ontology and the facts that the tests speak of.
use dl_base::{Axiom, Basic, Fact, Kind, Name, Ontology, OutOfMemory, RoleSide, Term};
use std::alloc::Global;
use std::test::Fail;
use update_engine::Rules;

pub const PERSON: u32 = 0;

pub const STAFF: u32 = 1;

pub const PROF: u32 = 2;

pub const STUDENT: u32 = 3;

pub const COURSE: u32 = 4;

pub const TEACHES: u32 = 5;

pub const HEAD_OF: u32 = 6;

/// A fact: its term, its subject, and its object, which a class fact leaves empty.
pub type Line = (u32, &'static str, &'static str);

/// The rules of the university.
pub fn university(alloc: Global) -> Result<Rules, Fail> {
    Ok(Rules::compile(alloc, &university_with(alloc, None)?)?)
}

/// Staff are persons and professors are staff, and no student is staff; who teaches is a professor, and what is taught is a course. One
/// heads one thing, and nothing heads itself. One axiom may come on top.
pub fn university_with(alloc: Global, more: Option<Axiom>) -> Result<Ontology, Fail> {
    let teaches = RoleSide::Direct(Term(TEACHES));
    let taught = RoleSide::Inverse(Term(TEACHES));
    let head_of = RoleSide::Direct(Term(HEAD_OF));
    let mut axioms = vec![in alloc;
        Axiom::ConceptIn(class(STAFF), class(PERSON)),
        Axiom::ConceptIn(class(PROF), class(STAFF)),
        Axiom::ConceptApart(class(STUDENT), class(STAFF)),
        Axiom::ConceptIn(Basic::Exists(teaches), class(PROF)),
        Axiom::ConceptIn(Basic::Exists(taught), class(COURSE)),
        Axiom::FunctionalRole(head_of),
        Axiom::RoleApart(head_of, RoleSide::Inverse(Term(HEAD_OF))),
    ]?;
    if let Some(axiom) = more {
        axioms.push(axiom)?;
    }
    Ok(Ontology::of(alloc, terms(alloc)?, axioms)?)
}

fn terms(alloc: Global) -> Result<Vec<(Name, Kind)>, OutOfMemory> {
    let mut terms = Vec::new(alloc);
    for number in 0..HEAD_OF + 1 {
        let name = Name::of(alloc, &[b'a' + number as u8])?;
        let kind = if number < TEACHES {
            Kind::Class
        } else {
            Kind::Role
        };
        terms.push((name, kind))?;
    }
    Ok(terms)
}

/// The class of this number.
pub fn class(number: u32) -> Basic {
    Basic::Class(Term(number))
}

/// The facts of these lines.
pub fn facts(alloc: Global, lines: &[Line]) -> Result<Vec<Fact>, OutOfMemory> {
    let mut facts = Vec::new(alloc);
    for line in lines {
        facts.push(fact(alloc, *line)?)?;
    }
    Ok(facts)
}

/// The fact of this line.
pub fn fact(alloc: Global, line: Line) -> Result<Fact, OutOfMemory> {
    let (number, subject, object) = line;
    let subject = Name::of(alloc, subject.as_bytes())?;
    if number < TEACHES {
        return Ok(Fact::Class(Term(number), subject));
    }
    Ok(Fact::Role(Term(number), subject, Name::of(alloc, object.as_bytes())?))
}

/// Whether the facts are those of the lines.
pub fn are(alloc: Global, found: &[Fact], lines: &[Line]) -> Result<bool, OutOfMemory> {
    let wanted = facts(alloc, lines)?;
    Ok(wanted.as_slice() == found)
}
