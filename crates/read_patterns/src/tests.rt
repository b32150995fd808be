//! Requests that facts meet, over the university.
use crate::samples::{
    COURSE, Form, Line, PERSON, PROF, STUDENT, TEACHES, are_simple, fact, is_sound, request,
    university,
};
use crate::{Met, Parts, Recorded};
use conflict_rules::Conflicts;
use dl_base::{Fact, OutOfMemory, Request};
use entail_guards::Entailers;
use std::alloc::Global;
use std::process::Abort;
use std::test::Fail;
use tbox_closure::close;

fn recorded(alloc: Global, lines: &[(Form, Line)]) -> Result<Recorded, Fail> {
    let mut recorded = Recorded::new(alloc);
    for (form, line) in lines {
        if recorded.add(request(alloc, *form, *line)?).is_err() {
            return Err(OutOfMemory.into());
        }
    }
    Ok(recorded)
}

/// The place of the first of the requests that the fact meets.
fn first_met(
    rt: &impl Abort,
    alloc: Global,
    lines: &[(Form, Line)],
    given: Line,
) -> Result<Option<usize>, Fail> {
    let ontology = university(alloc)?;
    let implied = close(alloc, &ontology)?;
    let conflicts = Conflicts::compile(alloc, &implied, &ontology)?;
    let entailers = Entailers::compile(&implied)?;
    let recorded = recorded(alloc, lines)?;
    let fact = fact(alloc, given)?;
    assert!(rt; are_simple(&conflicts, recorded.requests()));
    assert!(rt; is_sound(&conflicts, &fact));
    Ok(recorded.meets(&conflicts, &entailers, &fact))
}

// Who teaches is a professor and so staff, which a student isn't; professors are persons.
#[test]
fn facts_meet_what_they_clash_with_and_what_they_entail(rt: HostRuntime) -> Result<(), Fail> {
    let alloc = rt.alloc();
    let ann_teaches = (TEACHES, "ann", "cs1");
    for (form, line, given, want) in [
        (Form::Insert, (STUDENT, "ann", ""), ann_teaches, true),
        (Form::Insert, (STUDENT, "bob", ""), ann_teaches, false),
        (Form::Insert, (PROF, "ann", ""), ann_teaches, false),
        (Form::Delete, (PERSON, "ann", ""), ann_teaches, true),
        (Form::Delete, (PERSON, "cs1", ""), ann_teaches, false),
        (Form::Delete, (PROF, "ann", ""), (PERSON, "ann", ""), false),
        (Form::Ask, (PERSON, "", ""), ann_teaches, true),
        (Form::Ask, (STUDENT, "", ""), ann_teaches, false),
        (Form::Ask, (TEACHES, "", ""), (PROF, "ann", ""), false),
    ] {
        let met = first_met(&rt, alloc, &[(form, line)], given)?;
        assert_eq!(rt; met.is_some(), want, "{line:?} {given:?}");
    }
    Ok(())
}

// A professor meets the deletion of a person and the ask, and meets no request about courses.
#[test]
fn the_first_request_is_named(rt: HostRuntime) -> Result<(), Fail> {
    let alloc = rt.alloc();
    let lines = [
        (Form::Ask, (COURSE, "", "")),
        (Form::Insert, (PROF, "ann", "")),
        (Form::Delete, (PERSON, "ann", "")),
        (Form::Ask, (PERSON, "", "")),
    ];
    for (given, want) in [
        ((PROF, "ann", ""), Some(2)),
        ((PROF, "bob", ""), Some(3)),
        ((COURSE, "cs1", ""), Some(0)),
        ((STUDENT, "ann", ""), Some(1)),
    ] {
        assert_eq!(rt; first_met(&rt, alloc, &lines, given)?, want, "{given:?}");
    }
    assert_eq!(rt; first_met(&rt, alloc, &[], (PROF, "ann", ""))?, None);
    Ok(())
}

// What a transaction hands over comes back as it was.
#[test]
fn parts_keep_what_they_were_given(rt: HostRuntime) -> Result<(), Fail> {
    let alloc = rt.alloc();
    let parts = Parts {
        base: 3,
        recorded: recorded(alloc, &[(Form::Ask, (PERSON, "", ""))])?,
        added: vec![in alloc; fact(alloc, (PROF, "ann", ""))?]?,
        removed: Vec::new(alloc),
    };
    assert_eq!(rt; parts.base, 3);
    assert!(rt; matches!(parts.added.as_slice(), [Fact::Class(_, _)]));
    assert!(rt; parts.removed.is_empty());
    let requests = parts.recorded.into_requests();
    assert!(rt; matches!(requests.as_slice(), [Request::Ask(_)]));
    assert_eq!(rt; Recorded::of(requests).len(), 1);
    let met = Met {
        entry: 1,
        place: 0,
        request: 2,
    };
    assert_eq!(rt; met, met);
    Ok(())
}
