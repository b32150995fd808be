//! Answers over a small ontology, by each set of facts: teachers are persons, and who teaches is a teacher.
ghost use Rattle.std.specs.Prelude.{◌≡◌, ◌≤◌, IsTrue, IfOk, Contains};
ghost use Rattle.dl_base.specs.Ontologies.{Knows};
ghost use Rattle.dl_base.specs.declared.statements.Fact as fact_type;

use crate::answers;
use dl_base::{
    Axiom, Basic, Fact, FactSet, Kind, Name, Ontology, OutOfMemory, Pattern, PlainSet, RoleSide,
    Steps, Term, Versions,
};
use entail_guards::Entailers;
use fact_index::Whole;
use std::alloc::Global;
use std::marker::Brand;
use std::sync::ledger::{Blank, Ledger};
use std::test::Fail;
use tbox_closure::close;

const PERSON: Term = Term(0);

const TEACHER: Term = Term(1);

const STUDENT: Term = Term(2);

const TEACHES: Term = Term(3);

fn name(alloc: Global, text: &str) -> Result<Name, OutOfMemory> {
    Name::of(alloc, text.as_bytes())
}

fn ontology(alloc: Global) -> Result<Ontology, Fail> {
    let mut terms = Vec::new(alloc);
    for (text, kind) in [
        ("person", Kind::Class),
        ("teacher", Kind::Class),
        ("student", Kind::Class),
        ("teaches", Kind::Role),
    ] {
        terms.push((name(alloc, text)?, kind))?;
    }
    let axioms = vec![in alloc;
        Axiom::ConceptIn(Basic::Class(TEACHER), Basic::Class(PERSON)),
        Axiom::ConceptIn(
            Basic::Exists(RoleSide::Direct(TEACHES)),
            Basic::Class(TEACHER)
        ),
    ]?;
    Ok(Ontology::of(alloc, terms, axioms)?)
}

/// What single facts entail under the ontology.
fn entailers(alloc: Global, ontology: &Ontology) -> Result<Entailers, OutOfMemory>
    ensures { IfOk result (λ entailers. entailers ≡ ontology.now) }
{
    let implied = close(alloc, ontology)?;
    let entailers = Entailers::compile(&implied)?;
    Ok(entailers)
}

fn knows_all(ontology: &Ontology, facts: &[Fact]) -> bool
    ensures { IsTrue result → (f : fact_type.Fact) → Contains facts.now f → Knows ontology.now f }
{
    for fact in facts {
        if !ontology.knows(fact) {
            return false;
        }
    }
    true
}

fn counted<S: FactSet, L: Ledger>(
    alloc: Global,
    entailers: &Entailers,
    set: &S,
    pattern: &Pattern,
    blank: Blank,
) -> Result<Vec<Fact>, OutOfMemory>
    requires name { blank.name ≡ L.name }
    requires parts { blank.parts ≡ L.parts }
    requires one { blank.parts ≡ 1 }
    requires known { (f : fact_type.Fact) → Contains (S.facts set.now) f → Knows entailers.now f }
{
    let mut steps: Steps<L> = Steps::new(blank);
    answers(alloc, entailers, set, pattern, &mut steps)
}

/// The answers over these facts. `None` where the ontology doesn't know them.
fn answered<S: Versions + Drop>(
    alloc: Global,
    facts: Vec<Fact>,
    pattern: &Pattern,
) -> Result<Option<Vec<Fact>>, Fail> {
    let ontology = ontology(alloc)?;
    let entailers = entailers(alloc, &ontology)?;
    let set: S = Versions::of(alloc, facts)?;
    let all = set.all(alloc)?;
    if !knows_all(&ontology, all.as_slice()) {
        return Ok(None);
    }
    let found = counted::<S, Brand>(alloc, &entailers, &set, pattern, Blank::new(1))?;
    Ok(Some(found))
}

/// Who teaches one course, and a student.
fn taught(alloc: Global) -> Result<Vec<Fact>, Fail> {
    Ok(vec![in alloc;
        Fact::Role(TEACHES, name(alloc, "ann")?, name(alloc, "cs1")?),
        Fact::Class(STUDENT, name(alloc, "bob")?),
    ]?)
}

// Who teaches is a person; a student isn't said to be one.
#[test]
fn a_superclass_is_answered_from_role_facts(rt: HostRuntime) -> Result<(), Fail> {
    let alloc = rt.alloc();
    let plain = answered::<PlainSet>(alloc, taught(alloc)?, &Pattern::Class(PERSON))?;
    let whole = answered::<Whole>(alloc, taught(alloc)?, &Pattern::Class(PERSON))?;
    let wanted = vec![in alloc; Fact::Class(PERSON, name(alloc, "ann")?)]?;
    for answers in [&plain, &whole] {
        match answers {
            Some(answers) => assert!(rt; answers.as_slice() == wanted.as_slice(), "{answers:?}"),
            None => panic!(rt; "the facts aren't known"),
        }
    }
    Ok(())
}
