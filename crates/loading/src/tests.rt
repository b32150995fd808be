mod opening;
mod sets;
mod texts;
mod whole;

use dl_base::{Axiom, Basic, Kind, Name, Ontology, RoleSide, Term};
use std::alloc::Global;
use std::test::Fail;

const PROF: u32 = 0;

const STUDENT: u32 = 1;

const TEACHES: u32 = 2;

const HEAD_OF: u32 = 3;

const BADGE: u32 = 4;

const INTEGER: &str = "http://www.w3.org/2001/XMLSchema#integer";

/// The classes `u:Prof` and `u:Student`, the roles `u:teaches` and `u:headOf`, the attribute `u:badge` and the annotation property `u:note`.
/// Who teaches is a professor and no student; one heads one thing, and nothing heads itself; a badge is an integer.
fn university(alloc: Global) -> Result<Ontology, Fail> {
    let mut terms = Vec::new(alloc);
    for (name, kind) in [
        ("u:Prof", Kind::Class),
        ("u:Student", Kind::Class),
        ("u:teaches", Kind::Role),
        ("u:headOf", Kind::Role),
        ("u:badge", Kind::Attr),
        ("u:note", Kind::Note),
    ] {
        terms.push((Name::of(alloc, name.as_bytes())?, kind))?;
    }
    let teaches = RoleSide::Direct(Term(TEACHES));
    let head_of = RoleSide::Direct(Term(HEAD_OF));
    let integer = Name::of(alloc, INTEGER.as_bytes())?;
    let axioms = vec![in alloc;
        Axiom::ConceptIn(Basic::Exists(teaches), class(PROF)),
        Axiom::ConceptApart(class(STUDENT), class(PROF)),
        Axiom::FunctionalRole(head_of),
        Axiom::RoleApart(head_of, RoleSide::Inverse(Term(HEAD_OF))),
        Axiom::Range(Term(BADGE), integer),
    ]?;
    Ok(Ontology::of(alloc, terms, axioms)?)
}

fn class(number: u32) -> Basic {
    Basic::Class(Term(number))
}
