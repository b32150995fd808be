//! Steps over an index, over one that is shared and over a plain set.
ghost use Rattle.std.specs.Prelude.{◌≡◌, Contains};
ghost use Rattle.dl_base.specs.Clash.{IsConsistent};
ghost use Rattle.dl_base.specs.Ontologies.{Knows};
ghost use Rattle.dl_base.specs.declared.statements.Fact as fact_type;

use super::opening::Line;
use super::{BADGE, HEAD_OF, INTEGER, PROF, STUDENT, TEACHES, class};
use dl_base::{
    Axiom, Basic, Fact, FactSet, Kind, Name, Ontology, OutOfMemory, PlainSet, RoleSide, Steps,
    Term, Value, Versions,
};
use fact_index::{Index, Whole};
use std::alloc::Global;
use std::marker::Brand;
use std::sync::ledger::{Blank, Ledger};
use std::test::Fail;
use update_engine::{Rules, Step, StepRefusal, first_clash, step};

/// What is stored, what is inserted and what is deleted; and how many facts are removed, put, added and lost.
type Row = (
    &'static [Line],
    &'static [Line],
    &'static [Line],
    (usize, usize, usize, usize),
);

const STAFF: u32 = 5;

const PERSON: u32 = 6;

const COURSE: u32 = 7;

const ROWS: [Row; 6] = [
    (
        &[(PROF, "ann", "")],
        &[],
        &[(PROF, "ann", "")],
        (1, 2, 2, 1),
    ),
    (
        &[(TEACHES, "ann", "cs1")],
        &[],
        &[(PROF, "ann", "")],
        (1, 3, 3, 2),
    ),
    (
        &[(PROF, "ann", "")],
        &[(STUDENT, "ann", "")],
        &[],
        (1, 2, 2, 2),
    ),
    (
        &[(HEAD_OF, "ann", "d1")],
        &[(HEAD_OF, "ann", "d2")],
        &[],
        (1, 1, 1, 1),
    ),
    (
        &[(BADGE, "ann", "7")],
        &[(BADGE, "ann", "7")],
        &[],
        (0, 1, 0, 0),
    ),
    (
        &[(PROF, "ann", "")],
        &[(PROF, "ann", "")],
        &[(STUDENT, "ann", "")],
        (0, 1, 0, 0),
    ),
];

/// Professors are staff and staff are persons, students are persons and no staff; who teaches is a professor, and what is taught is a
/// course; one heads one thing; one has one badge, which is an integer.
fn university(alloc: Global) -> Result<Ontology, Fail> {
    let mut terms = Vec::new(alloc);
    for (name, kind) in [
        ("u:Prof", Kind::Class),
        ("u:Student", Kind::Class),
        ("u:teaches", Kind::Role),
        ("u:headOf", Kind::Role),
        ("u:badge", Kind::Attr),
        ("u:Staff", Kind::Class),
        ("u:Person", Kind::Class),
        ("u:Course", Kind::Class),
    ] {
        terms.push((Name::of(alloc, name.as_bytes())?, kind))?;
    }
    let teaches = RoleSide::Direct(Term(TEACHES));
    let taught = RoleSide::Inverse(Term(TEACHES));
    let integer = Name::of(alloc, INTEGER.as_bytes())?;
    let axioms = vec![in alloc;
        Axiom::ConceptIn(class(STAFF), class(PERSON)),
        Axiom::ConceptIn(class(PROF), class(STAFF)),
        Axiom::ConceptIn(class(STUDENT), class(PERSON)),
        Axiom::ConceptApart(class(STUDENT), class(STAFF)),
        Axiom::ConceptIn(Basic::Exists(teaches), class(PROF)),
        Axiom::ConceptIn(Basic::Exists(taught), class(COURSE)),
        Axiom::FunctionalRole(RoleSide::Direct(Term(HEAD_OF))),
        Axiom::FunctionalAttr(Term(BADGE)),
        Axiom::Range(Term(BADGE), integer),
    ]?;
    Ok(Ontology::of(alloc, terms, axioms)?)
}

fn facts(alloc: Global, lines: &[Line]) -> Result<Vec<Fact>, OutOfMemory> {
    let mut facts = Vec::new(alloc);
    for line in lines {
        facts.push(fact(alloc, *line)?)?;
    }
    Ok(facts)
}

/// The fact of this line, whose object is an integer for a badge.
fn fact(alloc: Global, line: Line) -> Result<Fact, OutOfMemory> {
    let (number, subject, object) = line;
    let subject = Name::of(alloc, subject.as_bytes())?;
    let object = Name::of(alloc, object.as_bytes())?;
    if number == TEACHES || number == HEAD_OF {
        return Ok(Fact::Role(Term(number), subject, object));
    }
    if number != BADGE {
        return Ok(Fact::Class(Term(number), subject));
    }
    let value = Value {
        datatype: Name::of(alloc, INTEGER.as_bytes())?,
        tag: Name::of(alloc, &[])?,
        text: object,
    };
    Ok(Fact::Attr(Term(number), subject, value))
}

#[test]
fn a_step_is_the_same_over_each_set(rt: HostRuntime) -> Result<(), Fail> {
    let alloc = rt.alloc();
    let rules = Rules::compile(alloc, &university(alloc)?)?;
    for row in ROWS {
        let plain = over::<PlainSet>(alloc, &rules, row)?;
        let whole = over::<Whole>(alloc, &rules, row)?;
        let index = over_index(alloc, &rules, row)?;
        match &plain {
            Some(step) => assert!(rt; counts(step) == row.3, "{step:?}"),
            None => panic!(rt; "not consistent"),
        }
        assert!(rt; are_same(&plain, &whole), "{whole:?}");
        assert!(rt; are_same(&plain, &index), "{index:?}");
    }
    Ok(())
}

fn counts(step: &Step) -> (usize, usize, usize, usize) {
    (
        step.removed.len(),
        step.put.len(),
        step.added.len(),
        step.lost.len(),
    )
}

fn are_same(one: &Option<Step>, other: &Option<Step>) -> bool {
    match (one, other) {
        (Some(one), Some(other)) => {
            one.removed.as_slice() == other.removed.as_slice()
                && one.put.as_slice() == other.put.as_slice()
                && one.added.as_slice() == other.added.as_slice()
                && one.lost.as_slice() == other.lost.as_slice()
        }
        _ => false,
    }
}

/// The step over such a set of the row's facts. `None` where they aren't known or not consistent.
fn over<S: Versions + Drop>(
    alloc: Global,
    rules: &Rules,
    row: Row,
) -> Result<Option<Step>, StepRefusal> {
    let set: S = Versions::of(alloc, facts(alloc, row.0)?)?;
    let all = set.all(alloc)?;
    if !rules.knows_all(all.as_slice()) {
        return Ok(None);
    }
    if let Some(_) = first_clash(rules, all.as_slice()) {
        return Ok(None);
    }
    let inserts = facts(alloc, row.1)?;
    let deletes = facts(alloc, row.2)?;
    let made = counted::<S, Brand>(
        alloc,
        rules,
        &set,
        inserts.as_slice(),
        deletes.as_slice(),
        Blank::new(1),
    )?;
    Ok(Some(made))
}

/// The same over an index.
fn over_index(alloc: Global, rules: &Rules, row: Row) -> Result<Option<Step>, StepRefusal> {
    let all = facts(alloc, row.0)?;
    let index = Index::of(alloc, all.as_slice())?;
    if !rules.knows_all(all.as_slice()) {
        return Ok(None);
    }
    if let Some(_) = first_clash(rules, all.as_slice()) {
        return Ok(None);
    }
    let inserts = facts(alloc, row.1)?;
    let deletes = facts(alloc, row.2)?;
    let made = counted::<Index, Brand>(
        alloc,
        rules,
        &index,
        inserts.as_slice(),
        deletes.as_slice(),
        Blank::new(1),
    )?;
    Ok(Some(made))
}

fn counted<S: FactSet, L: Ledger>(
    alloc: Global,
    rules: &Rules,
    set: &S,
    inserts: &[Fact],
    deletes: &[Fact],
    blank: Blank,
) -> Result<Step, StepRefusal>
    requires name { blank.name ≡ L.name }
    requires parts { blank.parts ≡ L.parts }
    requires one { blank.parts ≡ 1 }
    requires consistent { IsConsistent rules.now.axioms (S.facts set.now) }
    requires known { (f : fact_type.Fact) → Contains (S.facts set.now) f → Knows rules.now f }
{
    let mut steps: Steps<L> = Steps::new(blank);
    step(alloc, rules, set, inserts, deletes, &mut steps)
}
