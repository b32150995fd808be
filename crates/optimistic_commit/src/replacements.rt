//! Ontologies that are put in force between commits.
ghost use Rattle.std.specs.Prelude.{◌≡◌};
ghost use Rattle.std.specs.Arc.{arc_value};
ghost use Rattle.dl_base.specs.Histories.{in_force};
ghost use Rattle.dl_base.specs.Ontologies.{Extends};
ghost use Rattle.dl_base.specs.Validity.{IsOntology};
ghost use Rattle.serial_history.specs.States.{IsReady};

use crate::samples::{
    COURSE, Line, Lines, PERSON, PROF, STAFF, STUDENT, begun, facts, opened, with_apart,
};
use crate::states::State;
use crate::tests::{ANN_STUDIES, Answer, answer_of, last_changed};
use dl_base::{Ontology, OutOfMemory, PlainSet};
use read_patterns::{Met, Parts};
use serial_history::Replacing;
use std::alloc::Global;
use std::process::Abort;
use std::sync::Arc;
use std::test::Fail;
use update_engine::Rules;

/// Whether the answer names these stored facts.
fn names(alloc: Global, answer: &Replacing, lines: &[Line]) -> Result<bool, OutOfMemory> {
    let wanted = facts(alloc, lines)?;
    let named = match (answer, wanted.as_slice()) {
        (Replacing::Alone(fact), [first]) => fact == first,
        (Replacing::Pair(fact, beside), [first, second]) => fact == first && beside == second,
        _ => false,
    };
    Ok(named)
}

/// Editor 2 replaces the ontology by one in which these two classes are disjoint too.
fn replaced(
    rt: &impl Abort,
    alloc: Global,
    state: &mut State<PlainSet>,
    apart: (u32, u32),
) -> Result<Replacing, Fail> {
    let (ontology, rules) = with_apart(rt, alloc, state, apart.0, apart.1)?;
    Ok(state.replace(2, ontology, rules))
}

/// Editor 2 replaces the ontology, and then editor 1 publishes.
fn overtaken(
    state: &mut State<PlainSet>,
    ontology: Arc<Ontology>,
    rules: Arc<Rules>,
    parts: Parts,
) -> (Replacing, Answer)
    requires ready { IsReady state.old parts }
    requires ontology { IsOntology (arc_value ontology) }
    requires extends { Extends (arc_value ontology) (in_force state.old.opening state.old.entries) }
    requires compiled { arc_value rules ≡ arc_value ontology }
{
    let replacing = state.replace(2, ontology, rules);
    let published = state.publish(1, parts);
    (replacing, answer_of(&published))
}

/// A transaction of editor 1 that begins at the version that stands and makes this change.
fn committed(
    rt: &impl Abort,
    alloc: Global,
    state: &mut State<PlainSet>,
    lines: Lines,
) -> Result<Answer, Fail> {
    let parts = begun(rt, alloc, state, lines)?;
    Ok(answer_of(&state.publish(1, parts)))
}

/// How many axioms are in force at each version before the last.
fn axioms_by_version(alloc: Global, state: &State<PlainSet>) -> Result<Vec<usize>, OutOfMemory> {
    let mut counts = Vec::new(alloc);
    for version in 0..state.length() {
        counts.push(state.rules_at(version).ontology().axioms().len())?;
    }
    Ok(counts)
}

// The entry that replaces has no changed facts.
#[test]
fn a_replacement_stands_in_the_way(rt: HostRuntime) -> Result<(), Fail> {
    let alloc = rt.alloc();
    let mut state = opened(&rt, alloc, &[], 10)?;
    let parts = begun(&rt, alloc, &state, ANN_STUDIES)?;
    let (ontology, rules) = with_apart(&rt, alloc, &state, STUDENT, COURSE)?;
    let (replacing, answer) = overtaken(&mut state, ontology, rules, parts);
    let met = Met {
        entry: 1,
        place: 0,
        request: 0,
    };
    assert!(rt; matches!(replacing, Replacing::Replaced(1)));
    assert_eq!(rt; answer, Answer::Conflict(met, 2));
    assert!(rt; last_changed(alloc, &state, &[])?);
    assert_eq!(rt;
        committed(&rt, alloc, &mut state, ANN_STUDIES)?,
        Answer::Committed(2)
    );
    assert!(rt; last_changed(alloc, &state, &[((STUDENT, "ann", ""), true)])?);
    Ok(())
}

// A student isn't a course any more.
#[test]
fn a_new_axiom_takes_what_it_must(rt: HostRuntime) -> Result<(), Fail> {
    let alloc = rt.alloc();
    let student = (STUDENT, "ann", "");
    let course = (COURSE, "ann", "");
    let mut state = opened(&rt, alloc, &[student], 10)?;
    let replacing = replaced(&rt, alloc, &mut state, (STUDENT, COURSE))?;
    assert!(rt; matches!(replacing, Replacing::Replaced(1)));
    let is_course: Lines = (&[(COURSE, "ann", "")], &[]);
    assert_eq!(rt;
        committed(&rt, alloc, &mut state, is_course)?,
        Answer::Committed(2)
    );
    let changed = [
        ((PERSON, "ann", ""), true),
        (student, false),
        (course, true),
    ];
    assert!(rt; last_changed(alloc, &state, &changed)?);
    let counts = axioms_by_version(alloc, &state)?;
    assert_eq!(rt; counts.as_slice(), [6, 7].as_slice());
    assert_eq!(rt; state.rules().ontology().axioms().len(), 7);
    Ok(())
}

// The facts are named in their order, and no entry comes.
#[test]
fn stored_facts_stand_in_the_way(rt: HostRuntime) -> Result<(), Fail> {
    let alloc = rt.alloc();
    let lines = [(COURSE, "ann", ""), (STUDENT, "ann", ""), (PROF, "bob", "")];
    let mut state = opened(&rt, alloc, &lines, 10)?;
    let pair = replaced(&rt, alloc, &mut state, (COURSE, STUDENT))?;
    let named = [(STUDENT, "ann", ""), (COURSE, "ann", "")];
    assert!(rt; names(alloc, &pair, &named)?);
    let alone = replaced(&rt, alloc, &mut state, (STAFF, PERSON))?;
    assert!(rt; names(alloc, &alone, &[(PROF, "bob", "")])?);
    assert_eq!(rt; state.length(), 0);
    Ok(())
}

// The limit is looked at before the facts.
#[test]
fn a_full_history_is_not_replaced(rt: HostRuntime) -> Result<(), Fail> {
    let alloc = rt.alloc();
    let mut state = opened(&rt, alloc, &[(PROF, "bob", "")], 1)?;
    assert_eq!(rt;
        committed(&rt, alloc, &mut state, ANN_STUDIES)?,
        Answer::Committed(1)
    );
    let replacing = replaced(&rt, alloc, &mut state, (STAFF, PERSON))?;
    assert!(rt; matches!(replacing, Replacing::Full));
    assert_eq!(rt; state.length(), 1);
    Ok(())
}
