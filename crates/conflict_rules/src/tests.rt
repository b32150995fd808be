//! Facts that clash by themselves through individuals that must exist.

use crate::Conflicts;
use dl_base::{Axiom, Basic, Fact, Kind, Name, Ontology, RoleSide, Term};
use std::alloc::Global;
use std::test::Fail;
use tbox_closure::close;

const A: Basic = Basic::Class(Term(0));

const B: Basic = Basic::Class(Term(1));

const C: Basic = Basic::Class(Term(2));

const P: RoleSide = RoleSide::Direct(Term(3));

const P_INVERSE: RoleSide = RoleSide::Inverse(Term(3));

const Q: RoleSide = RoleSide::Direct(Term(4));

const Q_INVERSE: RoleSide = RoleSide::Inverse(Term(4));

const U: Term = Term(5);

/// Whether, under these axioms over the classes A, B and C, the roles p and q and the attribute u, the fact A(x) clashes by itself.
fn is_torn(alloc: Global, axioms: Vec<Axiom>) -> Result<bool, Fail> {
    let mut terms = Vec::new(alloc);
    for (name, kind) in [
        (b"A", Kind::Class),
        (b"B", Kind::Class),
        (b"C", Kind::Class),
        (b"p", Kind::Role),
        (b"q", Kind::Role),
        (b"u", Kind::Attr),
    ] {
        terms.push((Name::of(alloc, name)?, kind))?;
    }
    let ontology = Ontology::of(alloc, terms, axioms)?;
    let implied = close(alloc, &ontology)?;
    let conflicts = Conflicts::compile(alloc, &implied, &ontology)?;
    Ok(conflicts.alone(&Fact::Class(Term(0), Name::of(alloc, b"x")?)))
}

// What is in A has a p; what is a p of something is in B and in C.
#[test]
fn ranges_are_disjoint_at_a_witness(rt: HostRuntime) -> Result<(), Fail> {
    let alloc = rt.alloc();
    let axioms = vec![in alloc;
        Axiom::ConceptIn(A, Basic::Exists(P)),
        Axiom::ConceptIn(Basic::Exists(P_INVERSE), B),
        Axiom::ConceptIn(Basic::Exists(P_INVERSE), C),
    ]?;
    assert!(rt; !is_torn(alloc, axioms)?);
    let axioms = vec![in alloc;
        Axiom::ConceptIn(A, Basic::Exists(P)),
        Axiom::ConceptIn(Basic::Exists(P_INVERSE), B),
        Axiom::ConceptIn(Basic::Exists(P_INVERSE), C),
        Axiom::ConceptApart(B, C),
    ]?;
    assert!(rt; is_torn(alloc, axioms)?);
    Ok(())
}

// What is in A has a value of u, which would be an integer and a string.
#[test]
fn a_value_that_must_exist_has_two_ranges(rt: HostRuntime) -> Result<(), Fail> {
    let alloc = rt.alloc();
    let axioms = vec![in alloc;
        Axiom::ConceptIn(A, Basic::Domain(U)),
        Axiom::Range(U, Name::of(alloc, b"integer")?),
    ]?;
    assert!(rt; !is_torn(alloc, axioms)?);
    let axioms = vec![in alloc;
        Axiom::ConceptIn(A, Basic::Domain(U)),
        Axiom::Range(U, Name::of(alloc, b"integer")?),
        Axiom::Range(U, Name::of(alloc, b"string")?),
    ]?;
    assert!(rt; is_torn(alloc, axioms)?);
    Ok(())
}

// What is in A has a p in B; what is a p of something is in C.
#[test]
fn a_chosen_partner_is_in_disjoint_classes(rt: HostRuntime) -> Result<(), Fail> {
    let alloc = rt.alloc();
    let axioms = vec![in alloc;
        Axiom::ConceptSome(A, P, B),
        Axiom::ConceptIn(Basic::Exists(P_INVERSE), C),
    ]?;
    assert!(rt; !is_torn(alloc, axioms)?);
    let axioms = vec![in alloc;
        Axiom::ConceptSome(A, P, B),
        Axiom::ConceptIn(Basic::Exists(P_INVERSE), C),
        Axiom::ConceptApart(B, C),
    ]?;
    assert!(rt; is_torn(alloc, axioms)?);
    Ok(())
}

// What is in A has a p in B, what is in B has a q, and nothing is a q of anything.
#[test]
fn a_partner_of_a_partner_is_nothing(rt: HostRuntime) -> Result<(), Fail> {
    let alloc = rt.alloc();
    let axioms = vec![in alloc;
        Axiom::ConceptSome(A, P, B),
        Axiom::ConceptIn(B, Basic::Exists(Q)),
    ]?;
    assert!(rt; !is_torn(alloc, axioms)?);
    let axioms = vec![in alloc;
        Axiom::ConceptSome(A, P, B),
        Axiom::ConceptIn(B, Basic::Exists(Q)),
        Axiom::ConceptApart(Basic::Exists(Q_INVERSE), Basic::Exists(Q_INVERSE)),
    ]?;
    assert!(rt; is_torn(alloc, axioms)?);
    Ok(())
}
