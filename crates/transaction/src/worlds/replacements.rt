//! Replacements of the ontology while transactions are begun.
use super::*;
use crate::samples::{COURSE, Line, PERSON, STUDENT, are, class, university_with};
use crate::worlds::replies::{has_one, is_alone, is_full, is_pair};
use crate::worlds::steps::{
    asks, begins, changes, commits, conflicts, last_changed, opened, reads_only, replace,
};
use dl_base::{Axiom, PlainSet};
use read_patterns::Met;
use std::process::Abort;
use std::test::Fail;

const STUDENT_ANN: Line = (STUDENT, "ann", "");

const COURSE_ANN: Line = (COURSE, "ann", "");

/// Editor 2 puts the university with one more axiom in force.
fn reply_to(
    rt: &impl Abort,
    alloc: Global,
    world: &mut World<PlainSet>,
    axiom: Axiom,
) -> Result<Reply, Fail> {
    let ontology = university_with(alloc, Some(axiom))?;
    replace(rt, alloc, world, 2, ontology)
}

/// What the university doesn't say.
fn students_are_persons() -> Axiom {
    Axiom::ConceptIn(class(STUDENT), class(PERSON))
}

/// Editor 2 says that students are persons, as the entry of this number.
fn replaces(
    rt: &impl Abort,
    alloc: Global,
    world: &mut World<PlainSet>,
    entry: u64,
) -> Result<(), Fail> {
    let reply = reply_to(rt, alloc, world, students_are_persons())?;
    assert!(rt;
        matches!(&reply, Reply::Replaced(number) if *number == entry),
        "{reply:?}"
    );
    Ok(())
}

// A change that began before the replacement is in its way.
#[test]
fn a_replacement_stands_in_the_way(rt: HostRuntime) -> Result<(), Fail> {
    let alloc = rt.alloc();
    let met = Met {
        entry: 1,
        place: 0,
        request: 0,
    };
    let mut world = opened(&rt, alloc, &[], 9)?;
    begins(&rt, &mut world, 1, 0)?;
    changes(&rt, alloc, &mut world, 1, &[STUDENT_ANN], &[])?;
    asks(&rt, alloc, &mut world, 1, PERSON, &[])?;
    replaces(&rt, alloc, &mut world, 1)?;
    assert!(rt; last_changed(alloc, &world, 2, &[])?);
    conflicts(&rt, &mut world, 1, met)
}

// A change that began after the replacement is asked for and committed by the new ontology.
#[test]
fn a_new_ontology_is_in_force(rt: HostRuntime) -> Result<(), Fail> {
    let alloc = rt.alloc();
    let mut world = opened(&rt, alloc, &[], 9)?;
    replaces(&rt, alloc, &mut world, 1)?;
    begins(&rt, &mut world, 1, 1)?;
    changes(&rt, alloc, &mut world, 1, &[STUDENT_ANN], &[])?;
    asks(&rt, alloc, &mut world, 1, PERSON, &[(PERSON, "ann", "")])?;
    commits(&rt, &mut world, 1, 2)?;
    assert!(rt; last_changed(alloc, &world, 1, &[(STUDENT_ANN, true)])?);
    Ok(())
}

// A transaction that only asked ends after a replacement as one that changed nothing.
#[test]
fn an_ask_ends_after_a_replacement(rt: HostRuntime) -> Result<(), Fail> {
    let alloc = rt.alloc();
    let mut world = opened(&rt, alloc, &[], 9)?;
    begins(&rt, &mut world, 1, 0)?;
    asks(&rt, alloc, &mut world, 1, PERSON, &[])?;
    replaces(&rt, alloc, &mut world, 1)?;
    reads_only(&rt, &mut world, 1, 0)
}

// No student is a course, but ann is both.
#[test]
fn two_facts_stand_in_the_way_of_an_ontology(rt: HostRuntime) -> Result<(), Fail> {
    let alloc = rt.alloc();
    let mut world = opened(&rt, alloc, &[STUDENT_ANN, COURSE_ANN], 9)?;
    let apart = Axiom::ConceptApart(class(STUDENT), class(COURSE));
    let reply = reply_to(&rt, alloc, &mut world, apart)?;
    is_pair(&rt, alloc, reply, STUDENT_ANN, COURSE_ANN)?;
    assert_eq!(rt; world.entries().len(), 0);
    Ok(())
}

// No student is a student.
#[test]
fn one_fact_stands_in_the_way_of_an_ontology(rt: HostRuntime) -> Result<(), Fail> {
    let alloc = rt.alloc();
    let mut world = opened(&rt, alloc, &[COURSE_ANN, STUDENT_ANN], 9)?;
    let apart = Axiom::ConceptApart(class(STUDENT), class(STUDENT));
    let reply = reply_to(&rt, alloc, &mut world, apart)?;
    is_alone(&rt, alloc, reply, STUDENT_ANN)?;
    assert!(rt;
        are(
            alloc,
            world.version().as_slice(),
            &[STUDENT_ANN, COURSE_ANN]
        )?
    );
    assert_eq!(rt; world.entries().len(), 0);
    Ok(())
}

// An editor with a transaction replaces nothing, and a full history takes no ontology.
#[test]
fn a_replacement_is_refused(rt: HostRuntime) -> Result<(), Fail> {
    let alloc = rt.alloc();
    let mut world = opened(&rt, alloc, &[], 1)?;
    begins(&rt, &mut world, 2, 0)?;
    has_one(
        &rt,
        reply_to(&rt, alloc, &mut world, students_are_persons())?,
    );
    reads_only(&rt, &mut world, 2, 0)?;
    replaces(&rt, alloc, &mut world, 1)?;
    is_full(
        &rt,
        reply_to(&rt, alloc, &mut world, students_are_persons())?,
        1,
    );
    Ok(())
}
