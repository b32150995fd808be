ghost use Rattle.std.specs.Prelude.{IsTrue, All};
ghost use Rattle.dl_base.specs.Ontologies.{Knows};

use super::*;
use crate::samples::{COURSE, Line, PERSON, PROF, STAFF, STUDENT, are, facts, university};
use dl_base::{OutOfMemory, PlainSet, Term};
use std::process::Abort;
use std::test::Fail;
use update_engine::{IllFormed, first_clash};

/// A transaction over these facts, which are known and consistent.
fn begun(
    rt: &impl Abort,
    alloc: Global,
    lines: &[Line],
    base: u64,
) -> Result<Transaction<PlainSet>, Fail> {
    let rules = university(alloc)?;
    let version = PlainSet::of(alloc, facts(alloc, lines)?)?;
    assert!(rt; rules.knows_all(version.as_slice()));
    if let Some(clash) = first_clash(&rules, version.as_slice()) {
        panic!(rt; "{clash:?}");
    }
    Ok(Transaction::at(alloc, Arc::new(alloc, rules)?, version, base))
}

/// Whether the facts are over terms of the transaction's ontology.
fn knows(transaction: &Transaction<PlainSet>, facts: &[Fact]) -> bool
    ensures { IsTrue result → All (Knows transaction.now.ontology) facts.now }
{
    transaction.rules().knows_all(facts)
}

/// The answer to a change.
fn change(
    rt: &impl Abort,
    alloc: Global,
    transaction: &mut Transaction<PlainSet>,
    inserts: &[Line],
    deletes: &[Line],
) -> Result<Result<Vec<Fact>, TxRefusal>, Fail> {
    let inserts = facts(alloc, inserts)?;
    let deletes = facts(alloc, deletes)?;
    assert!(rt; knows(transaction, inserts.as_slice()));
    assert!(rt; knows(transaction, deletes.as_slice()));
    Ok(transaction.change(inserts.as_slice(), deletes.as_slice()))
}

/// Whether the change is answered that these facts are lost.
fn loses(
    rt: &impl Abort,
    alloc: Global,
    transaction: &mut Transaction<PlainSet>,
    inserts: &[Line],
    deletes: &[Line],
    lost: &[Line],
) -> Result<bool, Fail> {
    let answer = change(rt, alloc, transaction, inserts, deletes)?;
    are_answered(alloc, &answer, lost)
}

/// Why the change isn't served.
fn refusal_of(
    rt: &impl Abort,
    alloc: Global,
    transaction: &mut Transaction<PlainSet>,
    inserts: &[Line],
    deletes: &[Line],
) -> Result<Option<TxRefusal>, Fail> {
    Ok(change(rt, alloc, transaction, inserts, deletes)?.err())
}

/// Whether these facts were answered.
fn are_answered(
    alloc: Global,
    answer: &Result<Vec<Fact>, TxRefusal>,
    lines: &[Line],
) -> Result<bool, Fail> {
    match answer {
        Ok(found) => Ok(are(alloc, found.as_slice(), lines)?),
        Err(_) => Ok(false),
    }
}

/// Whether the ask is answered with these facts.
fn answers(
    rt: &impl Abort,
    alloc: Global,
    transaction: &mut Transaction<PlainSet>,
    class: u32,
    lines: &[Line],
) -> Result<bool, Fail> {
    let pattern = Pattern::Class(Term(class));
    assert!(rt; transaction.ontology().knows_pattern(&pattern));
    are_answered(alloc, &transaction.ask(&pattern), lines)
}

/// Why the ask isn't served.
fn ask_refusal(
    rt: &impl Abort,
    transaction: &mut Transaction<PlainSet>,
    class: u32,
) -> Option<TxRefusal> {
    let pattern = Pattern::Class(Term(class));
    assert!(rt; transaction.ontology().knows_pattern(&pattern));
    transaction.ask(&pattern).err()
}

// What is inserted is asked for before any commit.
#[test]
fn an_ask_sees_an_insertion(rt: HostRuntime) -> Result<(), Fail> {
    let alloc = rt.alloc();
    let mut transaction = begun(&rt, alloc, &[], 3)?;
    assert!(rt; loses(&rt, alloc, &mut transaction, &[(PROF, "bob", "")], &[], &[])?);
    assert!(rt; answers(&rt, alloc, &mut transaction, PERSON, &[(PERSON, "bob", "")])?);
    assert_eq!(rt; transaction.base(), 3);
    assert_eq!(rt; transaction.requests().len(), 2);
    assert!(rt; transaction.has_change());
    Ok(())
}

// The insertion takes the fact that clashes with it, and the ask sees it gone.
#[test]
fn an_ask_sees_a_removal(rt: HostRuntime) -> Result<(), Fail> {
    let alloc = rt.alloc();
    let student: &[Line] = &[(STUDENT, "bob", "")];
    let lost: &[Line] = &[(STAFF, "bob", ""), (PROF, "bob", "")];
    let mut transaction = begun(&rt, alloc, &[(PROF, "bob", "")], 0)?;
    assert!(rt; loses(&rt, alloc, &mut transaction, student, &[], lost)?);
    assert!(rt; answers(&rt, alloc, &mut transaction, STAFF, &[])?);
    assert!(rt; answers(&rt, alloc, &mut transaction, PERSON, &[(PERSON, "bob", "")])?);
    Ok(())
}

#[test]
fn an_ill_formed_change_is_not_recorded(rt: HostRuntime) -> Result<(), Fail> {
    let alloc = rt.alloc();
    let prof: &[Line] = &[(PROF, "ann", "")];
    let ill_formed = TxRefusal::IllFormed(IllFormed::Entails(0, 0));
    let mut transaction = begun(&rt, alloc, &[(PROF, "bob", "")], 0)?;
    let refusal = refusal_of(&rt, alloc, &mut transaction, prof, prof)?;
    assert_eq!(rt; refusal, Some(ill_formed));
    assert!(rt; answers(&rt, alloc, &mut transaction, PROF, &[(PROF, "bob", "")])?);
    assert_eq!(rt; transaction.requests().len(), 1);
    assert!(rt; !transaction.has_change());
    Ok(())
}

/// Asks so often as a transaction may.
fn ask_all(rt: &impl Abort, transaction: &mut Transaction<PlainSet>) {
    for _ in 0..MOST_REQUESTS {
        assert_eq!(rt; ask_refusal(rt, transaction, COURSE), None);
    }
}

// With 10,000 asks there is room for no other request, and the transaction ends as one that changed nothing.
#[test]
fn a_transaction_has_most_requests(rt: HostRuntime) -> Result<(), Fail> {
    let alloc = rt.alloc();
    let full = Some(TxRefusal::TooManyRequests);
    let mut transaction = begun(&rt, alloc, &[(PROF, "bob", "")], 7)?;
    ask_all(&rt, &mut transaction);
    assert_eq!(rt; ask_refusal(&rt, &mut transaction, COURSE), full);
    let refusal = refusal_of(&rt, alloc, &mut transaction, &[], &[])?;
    assert_eq!(rt; refusal, full);
    assert_eq!(rt; transaction.requests().len(), MOST_REQUESTS);
    assert!(rt; !transaction.has_change());
    assert_eq!(rt; transaction.finish(), 7);
    Ok(())
}

/// Whether the parts are of this number of requests, and put and take these facts.
fn are_parts(
    alloc: Global,
    parts: &Parts,
    requests: usize,
    put: &[Line],
    taken: &[Line],
) -> Result<bool, OutOfMemory> {
    let same = are(alloc, parts.added.as_slice(), put)?
        && are(alloc, parts.removed.as_slice(), taken)?;
    Ok(same && parts.recorded.len() == requests)
}

// What is inserted is put though the base has it. What survives a deletion is put, and what was deleted is taken.
#[test]
fn a_transaction_is_taken_apart_and_made_whole(rt: HostRuntime) -> Result<(), Fail> {
    let alloc = rt.alloc();
    let bob: &[Line] = &[(PROF, "bob", "")];
    let ann: &[Line] = &[(PROF, "ann", "")];
    let stored = [(PERSON, "ann", ""), (PROF, "ann", ""), (PROF, "bob", "")];
    let put = [(PERSON, "ann", ""), (STAFF, "ann", ""), (PROF, "bob", "")];
    let mut transaction = begun(&rt, alloc, &stored, 2)?;
    assert!(rt; loses(&rt, alloc, &mut transaction, bob, &[], &[])?);
    assert!(rt; loses(&rt, alloc, &mut transaction, &[], ann, ann)?);
    let (base, parts) = transaction.into_parts();
    assert_eq!(rt; parts.base, 2);
    assert!(rt; are_parts(alloc, &parts, 2, &put, ann)?);
    let mut again = Transaction::from_parts(base, parts);
    assert!(rt; answers(&rt, alloc, &mut again, PROF, bob)?);
    assert_eq!(rt; again.requests().len(), 3);
    Ok(())
}

// Facts that were put and then taken, and the other way round.
#[test]
fn the_last_request_decides(rt: HostRuntime) -> Result<(), Fail> {
    let alloc = rt.alloc();
    let course: &[Line] = &[(COURSE, "cs1", "")];
    let prof: &[Line] = &[(PROF, "ann", "")];
    let lost: &[Line] = &[(PERSON, "ann", ""), (STAFF, "ann", ""), (PROF, "ann", "")];
    let mut transaction = begun(&rt, alloc, course, 0)?;
    assert!(rt; loses(&rt, alloc, &mut transaction, prof, course, course)?);
    assert!(rt;
        loses(
            &rt,
            alloc,
            &mut transaction,
            course,
            &[(PERSON, "ann", "")],
            lost
        )?
    );
    let (_base, parts) = transaction.into_parts();
    assert!(rt; are_parts(alloc, &parts, 2, course, prof)?);
    Ok(())
}
