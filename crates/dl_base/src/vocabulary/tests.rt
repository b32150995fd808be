use super::*;
use crate::samples::{fact, name, value};
use std::test::Fail;

const CLASS: Basic = Basic::Class(Term(0));

const P: RoleSide = RoleSide::Direct(Term(1));

const TO_P: RoleSide = RoleSide::Inverse(Term(1));

const U: Term = Term(2);

const Q: RoleSide = RoleSide::Direct(Term(3));

const W: Term = Term(4);

type Entry = (&'static str, Kind);

const TERMS: [Entry; 6] = [
    ("A", Kind::Class),
    ("p", Kind::Role),
    ("u", Kind::Attr),
    ("q", Kind::Role),
    ("w", Kind::Attr),
    ("note", Kind::Note),
];

fn terms(alloc: Global, entries: &[Entry]) -> Result<Vec<(Name, Kind)>, OutOfMemory> {
    let mut terms = Vec::new(alloc);
    for entry in entries {
        terms.push((name(alloc, entry.0)?, entry.1))?;
    }
    Ok(terms)
}

fn made(alloc: Global, entries: &[Entry]) -> Result<Ontology, OntologyRefusal> {
    Ontology::of(alloc, terms(alloc, entries)?, Vec::new(alloc))
}

/// Why the axioms make no ontology over the terms.
fn refused(alloc: Global, axioms: Vec<Axiom>) -> Result<Option<OntologyRefusal>, OutOfMemory> {
    let made = Ontology::of(alloc, terms(alloc, &TERMS)?, axioms);
    Ok(made.err())
}

/// So many terms, whose names are the bytes of their numbers, or of 0 if `alike`.
fn many(alloc: Global, count: u32, alike: bool) -> Result<Vec<(Name, Kind)>, OutOfMemory> {
    let mut terms = Vec::new(alloc);
    for number in 0..count {
        let named = if alike { 0 } else { number };
        terms.push((Name::of(alloc, &named.to_be_bytes())?, Kind::Class))?;
    }
    Ok(terms)
}

// That a name stands twice is told only of so many terms.
#[test]
fn there_are_at_most_4000_terms(rt: HostRuntime) -> Result<(), Fail> {
    let alloc = rt.alloc();
    for (count, alike, want) in [
        (4000, false, None),
        (4000, true, Some(OntologyRefusal::TwoKinds(1))),
        (4001, true, Some(OntologyRefusal::TooManyTerms)),
    ] {
        let made = Ontology::of(alloc, many(alloc, count, alike)?, Vec::new(alloc));
        assert_eq!(rt; made.err(), want, "{count} terms");
    }
    Ok(())
}

#[test]
fn each_name_stands_once(rt: HostRuntime) -> Result<(), Fail> {
    let alloc = rt.alloc();
    let twice = [
        ("A", Kind::Class),
        ("b", Kind::Role),
        ("A", Kind::Class),
        ("b", Kind::Role),
    ];
    let of_class = vec![in alloc; Axiom::FunctionalRole(RoleSide::Direct(Term(0)))]?;
    let made = Ontology::of(alloc, terms(alloc, &twice)?, of_class);
    assert_eq!(rt; made.err(), Some(OntologyRefusal::TwoKinds(2)));
    Ok(())
}

/// An axiom of each form, each with one term that is of another kind, or none.
fn ill_made(alloc: Global) -> Result<Vec<Axiom>, OutOfMemory> {
    Ok(vec![in alloc;
        Axiom::ConceptIn(CLASS, Basic::Class(Term(1))),
        Axiom::ConceptApart(Basic::Domain(Term(1)), CLASS),
        Axiom::RoleIn(P, RoleSide::Inverse(U)),
        Axiom::RoleApart(RoleSide::Direct(Term(0)), P),
        Axiom::AttrIn(U, Term(1)),
        Axiom::AttrApart(Term(6), U),
        Axiom::Range(Term(0), name(alloc, "integer")?),
        Axiom::FunctionalRole(RoleSide::Direct(Term(5))),
        Axiom::FunctionalAttr(Term(5)),
        Axiom::ConceptSome(CLASS, P, Basic::Exists(RoleSide::Direct(U))),
    ]?)
}

// It is told before that something functional is specialised, even where this stands first.
#[test]
fn axioms_are_over_terms_of_their_kinds(rt: HostRuntime) -> Result<(), Fail> {
    let alloc = rt.alloc();
    for wrong in ill_made(alloc)?.iter() {
        let axioms = vec![in alloc;
            Axiom::FunctionalRole(P),
            Axiom::RoleIn(Q, P),
            wrong.copy(alloc)?,
        ]?;
        assert_eq!(rt;
            refused(alloc, axioms)?,
            Some(OntologyRefusal::BadAxiom(2)),
            "{wrong:?}"
        );
    }
    Ok(())
}

/// What is declared functional, and an axiom that specialises it.
fn specialising(alloc: Global) -> Result<Vec<(Axiom, Axiom)>, OutOfMemory> {
    Ok(vec![in alloc;
        (Axiom::FunctionalRole(P), Axiom::RoleIn(Q, P)),
        (Axiom::FunctionalRole(P), Axiom::RoleIn(Q, TO_P)),
        (
            Axiom::FunctionalRole(TO_P),
            Axiom::ConceptSome(CLASS, P, CLASS)
        ),
        (Axiom::FunctionalAttr(U), Axiom::AttrIn(W, U)),
    ]?)
}

#[test]
fn nothing_functional_is_specialised(rt: HostRuntime) -> Result<(), Fail> {
    let alloc = rt.alloc();
    let want = Some(OntologyRefusal::FunctionalSpecialised(2));
    for (first, second) in specialising(alloc)?.iter().map(|two| (&two.0, &two.1)) {
        let one = vec![in alloc;
            Axiom::RoleIn(P, Q),
            first.copy(alloc)?,
            second.copy(alloc)?,
        ]?;
        let turned = vec![in alloc;
            Axiom::RoleIn(P, Q),
            second.copy(alloc)?,
            first.copy(alloc)?,
        ]?;
        assert_eq!(rt; refused(alloc, one)?, want, "{second:?}");
        assert_eq!(rt; refused(alloc, turned)?, want, "{second:?}");
    }
    Ok(())
}

/// The terms with axioms that specialise what isn't functional.
fn whole(alloc: Global) -> Result<Ontology, OntologyRefusal> {
    let axioms = vec![in alloc;
        Axiom::FunctionalRole(P),
        Axiom::RoleIn(P, Q),
        Axiom::FunctionalAttr(U),
        Axiom::AttrIn(U, W),
    ]?;
    Ontology::of(alloc, terms(alloc, &TERMS)?, axioms)
}

#[test]
fn an_ontology_keeps_its_parts(rt: HostRuntime) -> Result<(), Fail> {
    let alloc = rt.alloc();
    let copy = whole(alloc)?.copy(alloc)?;
    assert_eq!(rt; copy.terms(), 6);
    assert_eq!(rt; copy.axioms().len(), 4);
    assert_eq!(rt; copy.term(b"b"), None);
    assert!(rt; copy.name(Term(6)).is_none());
    for (place, entry) in TERMS.iter().enumerate() {
        let number = Term(place as u32);
        assert_eq!(rt;
            copy.term(entry.0.as_bytes()),
            Some((number, entry.1)),
            "term {place}"
        );
        let same = match copy.name(number) {
            Some(name) => name.as_slice() == entry.0.as_bytes(),
            None => false,
        };
        assert!(rt; same, "term {place}");
    }
    Ok(())
}

/// The terms by kind, with other numbers.
fn turned(alloc: Global) -> Result<Ontology, OntologyRefusal> {
    made(
        alloc,
        &[("u", Kind::Attr), ("A", Kind::Class), ("p", Kind::Role)],
    )
}

#[test]
fn an_ontology_knows_facts(rt: HostRuntime) -> Result<(), Fail> {
    let alloc = rt.alloc();
    let whole = whole(alloc)?;
    let turned = turned(alloc)?;
    for line in [(0, "a", ""), (1, "a", "b"), (2, "a", "1")] {
        let fact = fact(alloc, line)?;
        assert!(rt; whole.knows(&fact) && !turned.knows(&fact), "{fact:?}");
    }
    Ok(())
}

/// Patterns by number.
fn pattern(alloc: Global, form: usize) -> Result<Pattern, OutOfMemory> {
    let (a, v) = (name(alloc, "a")?, value(alloc, "1")?);
    Ok(match form {
        0 => Pattern::Class(Term(0)),
        1 => Pattern::ClassOf(Term(0), a),
        2 => Pattern::RoleFrom(Term(1), a),
        3 => Pattern::Role(Term(3)),
        4 => Pattern::AttrValue(U, v),
        _ => Pattern::AttrOfExcept(W, a, v),
    })
}

#[test]
fn an_ontology_knows_patterns(rt: HostRuntime) -> Result<(), Fail> {
    let alloc = rt.alloc();
    let whole = whole(alloc)?;
    let turned = turned(alloc)?;
    for form in 0..6 {
        let asked = pattern(alloc, form)?;
        assert!(rt;
            whole.knows_pattern(&asked) && !turned.knows_pattern(&asked),
            "{asked:?}"
        );
    }
    Ok(())
}

// More terms, the same, fewer, one with another name, one of another kind.
#[test]
fn an_ontology_extends_its_first_terms(rt: HostRuntime) -> Result<(), Fail> {
    let alloc = rt.alloc();
    let base = made(alloc, &[("A", Kind::Class), ("p", Kind::Role)])?;
    let cases: [(&[Entry], bool); 5] = [
        (&TERMS, true),
        (&[("A", Kind::Class), ("p", Kind::Role)], true),
        (&[("A", Kind::Class)], false),
        (&[("A", Kind::Class), ("r", Kind::Role)], false),
        (&[("A", Kind::Class), ("p", Kind::Attr)], false),
    ];
    for (entries, want) in cases {
        let other = made(alloc, entries)?;
        assert_eq!(rt; other.extends(&base), want, "{entries:?}");
    }
    Ok(())
}
