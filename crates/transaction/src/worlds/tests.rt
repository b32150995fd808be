//! Two editors whose transactions begin and end in turn.
use super::*;
use crate::samples::{COURSE, Line, PERSON, PROF, STAFF, STUDENT, TEACHES, are};
use crate::worlds::replies::{has_none, has_one, is_full, loses};
use crate::worlds::steps::{
    asks, begins, change, changes, commits, conflicts, deletes, inserts, last_changed, opened,
    reads_only,
};
use dl_base::PlainSet;
use read_patterns::Met;
use std::process::Abort;
use std::test::Fail;
use update_engine::IllFormed;

const BOB: Line = (PROF, "bob", "");

const STUDENT_ANN: Line = (STUDENT, "ann", "");

const TEACHES_ANN: Line = (TEACHES, "ann", "cs1");

// A change of nothing is committed as an entry with one request and no changed fact.
#[test]
fn an_empty_change_is_committed(rt: HostRuntime) -> Result<(), Fail> {
    let alloc = rt.alloc();
    let mut world = opened(&rt, alloc, &[], 9)?;
    inserts(&rt, alloc, &mut world, 1, &[], 1)?;
    assert!(rt; last_changed(alloc, &world, 1, &[])?);
    match world.entries() {
        [entry] => assert_eq!(rt; entry.requests.as_slice().len(), 1),
        entries => panic!(rt; "{} entries", entries.len()),
    }
    Ok(())
}

// The insertion takes the fact that clashes with it, and keeps what that one entailed.
#[test]
fn a_change_stands_after_its_commit(rt: HostRuntime) -> Result<(), Fail> {
    let alloc = rt.alloc();
    let lost: &[Line] = &[(STAFF, "ann", ""), (PROF, "ann", "")];
    let mut world = opened(&rt, alloc, &[(PROF, "ann", "")], 1)?;
    begins(&rt, &mut world, 7, 0)?;
    let reply = change(&rt, alloc, &mut world, 7, &[STUDENT_ANN], &[])?;
    loses(&rt, alloc, reply, lost)?;
    commits(&rt, &mut world, 7, 1)?;
    let stand = [(PERSON, "ann", ""), STUDENT_ANN];
    assert!(rt; are(alloc, world.version().as_slice(), &stand)?);
    Ok(())
}

// An ask is answered by its base though another commits, and ends as one that changed nothing.
#[test]
fn an_ask_is_answered_by_its_base(rt: HostRuntime) -> Result<(), Fail> {
    let alloc = rt.alloc();
    let mut world = opened(&rt, alloc, &[], 9)?;
    begins(&rt, &mut world, 1, 0)?;
    asks(&rt, alloc, &mut world, 1, PERSON, &[])?;
    inserts(&rt, alloc, &mut world, 2, &[BOB], 1)?;
    asks(&rt, alloc, &mut world, 1, PERSON, &[])?;
    reads_only(&rt, &mut world, 1, 0)?;
    begins(&rt, &mut world, 1, 1)?;
    asks(&rt, alloc, &mut world, 1, PERSON, &[(PERSON, "bob", "")])
}

// Who teaches is a professor, and a student is none.
#[test]
fn what_follows_from_a_commit_stands_in_the_way(rt: HostRuntime) -> Result<(), Fail> {
    let alloc = rt.alloc();
    let mut world = opened(&rt, alloc, &[], 9)?;
    begins(&rt, &mut world, 1, 0)?;
    changes(&rt, alloc, &mut world, 1, &[STUDENT_ANN], &[])?;
    inserts(&rt, alloc, &mut world, 2, &[TEACHES_ANN], 1)?;
    assert!(rt; last_changed(alloc, &world, 2, &[(TEACHES_ANN, true)])?);
    let met = Met {
        entry: 1,
        place: 0,
        request: 0,
    };
    conflicts(&rt, &mut world, 1, met)?;
    begins(&rt, &mut world, 1, 1)
}

// A new course is no matter to a student.
#[test]
fn a_harmless_neighbour_stands_not_in_the_way(rt: HostRuntime) -> Result<(), Fail> {
    let alloc = rt.alloc();
    let mut world = opened(&rt, alloc, &[], 9)?;
    begins(&rt, &mut world, 1, 0)?;
    changes(&rt, alloc, &mut world, 1, &[STUDENT_ANN], &[])?;
    inserts(&rt, alloc, &mut world, 2, &[(COURSE, "cs9", "")], 1)?;
    commits(&rt, &mut world, 1, 2)?;
    assert!(rt; last_changed(alloc, &world, 1, &[(STUDENT_ANN, true)])?);
    Ok(())
}

// What was inserted and deleted again is met by the deletion alone.
#[test]
fn a_deletion_meets_the_insertion_of_another(rt: HostRuntime) -> Result<(), Fail> {
    let alloc = rt.alloc();
    let mut world = opened(&rt, alloc, &[], 9)?;
    begins(&rt, &mut world, 1, 0)?;
    changes(&rt, alloc, &mut world, 1, &[BOB], &[])?;
    let reply = change(&rt, alloc, &mut world, 1, &[], &[BOB])?;
    loses(&rt, alloc, reply, &[BOB])?;
    inserts(&rt, alloc, &mut world, 2, &[BOB], 1)?;
    let met = Met {
        entry: 1,
        place: 0,
        request: 1,
    };
    conflicts(&rt, &mut world, 1, met)
}

#[test]
fn the_same_insertion_is_committed_twice(rt: HostRuntime) -> Result<(), Fail> {
    let alloc = rt.alloc();
    let mut world = opened(&rt, alloc, &[], 9)?;
    begins(&rt, &mut world, 1, 0)?;
    changes(&rt, alloc, &mut world, 1, &[BOB], &[])?;
    inserts(&rt, alloc, &mut world, 2, &[BOB], 1)?;
    commits(&rt, &mut world, 1, 2)?;
    assert!(rt; last_changed(alloc, &world, 1, &[])?);
    Ok(())
}

// What another deleted comes again, and what it left stays.
#[test]
fn an_insertion_comes_after_a_deletion(rt: HostRuntime) -> Result<(), Fail> {
    let alloc = rt.alloc();
    let mut world = opened(&rt, alloc, &[BOB], 9)?;
    begins(&rt, &mut world, 1, 0)?;
    changes(&rt, alloc, &mut world, 1, &[BOB], &[])?;
    deletes(&rt, alloc, &mut world, 2, &[BOB], 1)?;
    let left = [
        ((PERSON, "bob", ""), true),
        ((STAFF, "bob", ""), true),
        (BOB, false),
    ];
    assert!(rt; last_changed(alloc, &world, 2, &left)?);
    commits(&rt, &mut world, 1, 2)?;
    assert!(rt; last_changed(alloc, &world, 1, &[(BOB, true)])?);
    Ok(())
}

// The transaction stays begun, and is answered still.
#[test]
fn a_full_history_leaves_a_transaction_begun(rt: HostRuntime) -> Result<(), Fail> {
    let alloc = rt.alloc();
    let mut world = opened(&rt, alloc, &[], 2)?;
    inserts(&rt, alloc, &mut world, 2, &[BOB], 1)?;
    inserts(&rt, alloc, &mut world, 2, &[STUDENT_ANN], 2)?;
    begins(&rt, &mut world, 1, 2)?;
    changes(&rt, alloc, &mut world, 1, &[(COURSE, "cs1", "")], &[])?;
    is_full(&rt, world.step(Event::Commit(1))?, 2);
    asks(&rt, alloc, &mut world, 1, COURSE, &[(COURSE, "cs1", "")])?;
    assert_eq!(rt; world.entries().len(), 2);
    Ok(())
}

// No commit and no ask without a begin, and no second begin.
#[test]
fn an_editor_has_one_transaction(rt: HostRuntime) -> Result<(), Fail> {
    let alloc = rt.alloc();
    let mut world = opened(&rt, alloc, &[], 9)?;
    has_none(&rt, world.step(Event::Commit(5))?);
    has_none(&rt, change(&rt, alloc, &mut world, 5, &[BOB], &[])?);
    begins(&rt, &mut world, 5, 0)?;
    has_one(&rt, world.step(Event::Begin(5))?);
    begins(&rt, &mut world, 6, 0)
}

/// The transaction is aborted, or there is none.
fn aborts(
    rt: &impl Abort,
    world: &mut World<PlainSet>,
    editor: u32,
    begun: bool,
) -> Result<(), Fail> {
    let reply = world.step(Event::Abort(editor))?;
    match &reply {
        Reply::Aborted => assert!(rt; begun),
        Reply::NoTransaction => assert!(rt; !begun),
        _ => panic!(rt; "{reply:?}"),
    }
    Ok(())
}

// What was aborted leaves no entry, and nothing of it is asked for afterwards.
#[test]
fn an_aborted_transaction_leaves_nothing(rt: HostRuntime) -> Result<(), Fail> {
    let alloc = rt.alloc();
    let mut world = opened(&rt, alloc, &[], 9)?;
    aborts(&rt, &mut world, 1, false)?;
    begins(&rt, &mut world, 1, 0)?;
    begins(&rt, &mut world, 2, 0)?;
    changes(&rt, alloc, &mut world, 1, &[BOB], &[])?;
    aborts(&rt, &mut world, 1, true)?;
    aborts(&rt, &mut world, 1, false)?;
    asks(&rt, alloc, &mut world, 2, PROF, &[])?;
    assert_eq!(rt; world.entries().len(), 0);
    Ok(())
}

#[test]
fn an_ill_formed_change_is_answered(rt: HostRuntime) -> Result<(), Fail> {
    let alloc = rt.alloc();
    let mut world = opened(&rt, alloc, &[], 9)?;
    begins(&rt, &mut world, 1, 0)?;
    let reply = change(&rt, alloc, &mut world, 1, &[BOB], &[BOB])?;
    match &reply {
        Reply::IllFormed(name) => assert_eq!(rt; *name, IllFormed::Entails(0, 0)),
        _ => panic!(rt; "{reply:?}"),
    }
    reads_only(&rt, &mut world, 1, 0)
}
