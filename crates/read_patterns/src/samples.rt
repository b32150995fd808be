//! The ontology, the facts and the requests that the tests speak of.
ghost use Rattle.std.specs.Prelude.{◌∷◌, [], All, IsTrue};
ghost use Rattle.dl_base.specs.Clash.{HasClash};
ghost use Rattle.dl_base.specs.Transactions.{IsWell};
ghost use Rattle.dl_base.specs.Updates.{IsWellFormed};

use conflict_rules::Conflicts;
use dl_base::{
    Axiom, Basic, Fact, Facts, Kind, Name, Ontology, OutOfMemory, Pattern, Request, RoleSide, Term,
};
use std::alloc::Global;
use std::test::Fail;

pub const PERSON: u32 = 0;

pub const STAFF: u32 = 1;

pub const PROF: u32 = 2;

pub const STUDENT: u32 = 3;

pub const COURSE: u32 = 4;

pub const TEACHES: u32 = 5;

/// A fact: its term, its subject, and its object, which a class fact leaves empty.
pub type Line = (u32, &'static str, &'static str);

/// One fact is inserted or deleted, or all facts of a term are asked for.
#[derive(Clone, Copy)]
pub enum Form {
    Insert,
    Delete,
    Ask,
}

/// Staff are persons and professors are staff, students are persons and no staff; who teaches is a professor, and what is taught is a course.
pub fn university(alloc: Global) -> Result<Ontology, Fail> {
    let mut terms = Vec::new(alloc);
    for number in 0..TEACHES + 1 {
        let kind = if number < TEACHES {
            Kind::Class
        } else {
            Kind::Role
        };
        terms.push((Name::of(alloc, &[b'a' + number as u8])?, kind))?;
    }
    let teaches = RoleSide::Direct(Term(TEACHES));
    let taught = RoleSide::Inverse(Term(TEACHES));
    let axioms = vec![in alloc;
        Axiom::ConceptIn(class(STAFF), class(PERSON)),
        Axiom::ConceptIn(class(PROF), class(STAFF)),
        Axiom::ConceptIn(class(STUDENT), class(PERSON)),
        Axiom::ConceptApart(class(STUDENT), class(STAFF)),
        Axiom::ConceptIn(Basic::Exists(teaches), class(PROF)),
        Axiom::ConceptIn(Basic::Exists(taught), class(COURSE)),
    ]?;
    Ok(Ontology::of(alloc, terms, axioms)?)
}

fn class(number: u32) -> Basic {
    Basic::Class(Term(number))
}

/// The fact of this line.
pub fn fact(alloc: Global, line: Line) -> Result<Fact, OutOfMemory> {
    let (number, subject, object) = line;
    let subject = Name::of(alloc, subject.as_bytes())?;
    if number < TEACHES {
        return Ok(Fact::Class(Term(number), subject));
    }
    Ok(Fact::Role(Term(number), subject, Name::of(alloc, object.as_bytes())?))
}

/// The request of this form and line.
pub fn request(alloc: Global, form: Form, line: Line) -> Result<Request, OutOfMemory> {
    let one = Facts::of(vec![in alloc; fact(alloc, line)?]?);
    let none = Facts::of(Vec::new(alloc));
    match form {
        Form::Insert => Ok(Request::Change {
            inserts: one,
            deletes: none,
        }),
        Form::Delete => Ok(Request::Change {
            inserts: none,
            deletes: one,
        }),
        Form::Ask => Ok(Request::Ask(asked(line.0))),
    }
}

fn asked(number: u32) -> Pattern {
    if number < TEACHES {
        return Pattern::Class(Term(number));
    }
    Pattern::Role(Term(number))
}

/// Whether the fact doesn't clash by itself.
pub fn is_sound(conflicts: &Conflicts, fact: &Fact) -> bool
    ensures { IsTrue result → ¬ HasClash conflicts.now.axioms (fact.now ∷ []) }
{
    !conflicts.alone(fact)
}

/// Whether each request is an ask, deletes alone, or inserts one fact alone that doesn't clash by itself.
pub fn are_simple(conflicts: &Conflicts, requests: &[Request]) -> bool
    ensures { IsTrue result → All (IsWell conflicts.now.axioms) requests.now }
{
    for request in requests {
        if !is_simple(conflicts, request) {
            return false;
        }
    }
    true
}

fn is_simple(conflicts: &Conflicts, request: &Request) -> bool
    ensures { IsTrue result → IsWell conflicts.now.axioms request.now }
{
    match request {
        Request::Change { inserts, deletes } => {
            is_one_sided(conflicts, inserts.as_slice(), deletes.as_slice())
        }
        Request::Ask(_) => true,
    }
}

fn is_one_sided(conflicts: &Conflicts, inserts: &[Fact], deletes: &[Fact]) -> bool
    ensures { IsTrue result → IsWellFormed conflicts.now.axioms inserts.now deletes.now }
{
    if inserts.is_empty() {
        return true;
    }
    if inserts.len() > 1 || !deletes.is_empty() {
        return false;
    }
    is_sound(conflicts, &inserts[0])
}
