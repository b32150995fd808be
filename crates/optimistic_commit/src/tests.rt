//! Two transactions that begin together, and one after the other.
ghost use Rattle.serial_history.specs.States.{IsReady};

use crate::publishing::Published;
use crate::samples::{
    COURSE, Line, Lines, PERSON, PROF, STAFF, STUDENT, TEACHES, begun, facts, opened,
};
use crate::states::State;
use dl_base::{Changed, OutOfMemory, PlainSet};
use read_patterns::{Met, Parts};
use std::alloc::Global;
use std::process::Abort;
use std::test::Fail;

/// What a commit was answered: for a conflict the editor of the entry, for a full history the base and the number of requests that came back.
#[derive(Debug, Clone, Copy, PartialEq, Eq)]
pub enum Answer {
    Committed(u64),
    Conflict(Met, u32),
    Full(u64, usize),
    OutOfMemory,
}

pub fn answer_of(published: &Published) -> Answer {
    match published {
        Published::Committed(number) => Answer::Committed(*number),
        Published::Conflict(met, entry) => Answer::Conflict(*met, entry.editor),
        Published::Full(parts) => Answer::Full(parts.base, parts.recorded.len()),
        Published::OutOfMemory(_) => Answer::OutOfMemory,
    }
}

/// Editor 2 publishes the second, and then editor 1 the first.
fn published(state: &mut State<PlainSet>, first: Parts, second: Parts) -> (Answer, Answer)
    requires first { IsReady state.old first }
    requires second { IsReady state.old second }
{
    let before = state.publish(2, second);
    let after = state.publish(1, first);
    (answer_of(&before), answer_of(&after))
}

/// Two transactions begin and make these changes. Editor 2 publishes the second as the first entry; what editor 1 is then answered.
fn second_before_first(
    rt: &impl Abort,
    alloc: Global,
    state: &mut State<PlainSet>,
    first: Lines,
    second: Lines,
) -> Result<Answer, Fail> {
    let first = begun(rt, alloc, state, first)?;
    let second = begun(rt, alloc, state, second)?;
    let (before, after) = published(state, first, second);
    assert_eq!(rt; before, Answer::Committed(1));
    Ok(after)
}

/// Whether these facts were changed, the removed ones marked with `false`.
fn are_changed(
    alloc: Global,
    changed: &[Changed],
    lines: &[(Line, bool)],
) -> Result<bool, OutOfMemory> {
    let mut wanted = Vec::new(alloc);
    for (line, _) in lines {
        wanted.push(*line)?;
    }
    let wanted = facts(alloc, wanted.as_slice())?;
    let same = changed.iter().map(|change| &change.fact).eq(wanted.iter());
    let marked = changed.iter().map(|change| change.added);
    Ok(same && marked.eq(lines.iter().map(|(_, added)| *added)))
}

/// Whether the last entry changed these facts.
pub fn last_changed(
    alloc: Global,
    state: &State<PlainSet>,
    lines: &[(Line, bool)],
) -> Result<bool, OutOfMemory> {
    match state.entries() {
        [.., last] => are_changed(alloc, last.changed.as_slice(), lines),
        [] => Ok(false),
    }
}

pub const ANN_STUDIES: Lines = (&[(STUDENT, "ann", "")], &[]);

const ANN_TEACHES: Lines = (&[(TEACHES, "ann", "cs1")], &[]);

const BOB_IS_PROF: Lines = (&[(PROF, "bob", "")], &[]);

// Who teaches is staff, and a student isn't.
#[test]
fn what_clashes_stands_in_the_way(rt: HostRuntime) -> Result<(), Fail> {
    let alloc = rt.alloc();
    let mut state = opened(&rt, alloc, &[], 10)?;
    let answer = second_before_first(&rt, alloc, &mut state, ANN_STUDIES, ANN_TEACHES)?;
    let met = Met {
        entry: 1,
        place: 0,
        request: 0,
    };
    assert_eq!(rt; answer, Answer::Conflict(met, 2));
    assert_eq!(rt; state.length(), 1);
    assert!(rt; last_changed(alloc, &state, &[((TEACHES, "ann", "cs1"), true)])?);
    Ok(())
}

// The parts come back, and the history keeps its one entry.
#[test]
fn a_full_history_takes_no_entry(rt: HostRuntime) -> Result<(), Fail> {
    let alloc = rt.alloc();
    let mut state = opened(&rt, alloc, &[], 1)?;
    let answer = second_before_first(&rt, alloc, &mut state, ANN_STUDIES, ANN_TEACHES)?;
    assert_eq!(rt; answer, Answer::Full(0, 1));
    assert_eq!(rt; state.length(), state.limit());
    Ok(())
}

/// Whether the first commits too, as the second entry, which changes these facts.
fn commits_both(
    rt: &impl Abort,
    alloc: Global,
    opening: &[Line],
    changes: (Lines, Lines),
    changed: &[(Line, bool)],
) -> Result<bool, Fail> {
    let mut state = opened(rt, alloc, opening, 10)?;
    let answer = second_before_first(rt, alloc, &mut state, changes.0, changes.1)?;
    assert_eq!(rt; answer, Answer::Committed(2));
    Ok(last_changed(alloc, &state, changed)?)
}

// A course, the same insertion and a deletion of what is inserted don't stand in the way.
#[test]
fn the_rest_commits_at_its_place(rt: HostRuntime) -> Result<(), Fail> {
    let alloc = rt.alloc();
    let course: Lines = (&[(COURSE, "cs9", "")], &[]);
    let studies = ((STUDENT, "ann", ""), true);
    assert!(rt; commits_both(&rt, alloc, &[], (ANN_STUDIES, course), &[studies])?);
    assert!(rt; commits_both(&rt, alloc, &[], (BOB_IS_PROF, BOB_IS_PROF), &[])?);
    let deletion: Lines = (&[], &[(PROF, "bob", "")]);
    let opening = (PROF, "bob", "");
    let prof = (opening, true);
    assert!(rt; commits_both(&rt, alloc, &[opening], (BOB_IS_PROF, deletion), &[prof])?);
    Ok(())
}

// Deleting a professor keeps the person and the member of staff.
#[test]
fn a_deletion_keeps_what_follows(rt: HostRuntime) -> Result<(), Fail> {
    let alloc = rt.alloc();
    let mut state = opened(&rt, alloc, &[(PROF, "bob", "")], 1)?;
    let parts = begun(&rt, alloc, &state, (&[], &[(PROF, "bob", "")]))?;
    assert_eq!(rt; answer_of(&state.publish(7, parts)), Answer::Committed(1));
    let changed = [
        ((PERSON, "bob", ""), true),
        ((STAFF, "bob", ""), true),
        ((PROF, "bob", ""), false),
    ];
    assert!(rt; last_changed(alloc, &state, &changed)?);
    let stands = facts(alloc, &[(PERSON, "bob", ""), (STAFF, "bob", "")])?;
    assert!(rt; state.version().as_slice() == stands.as_slice());
    Ok(())
}
