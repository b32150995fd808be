//! Replies, each looked at by itself.
use crate::events::Reply;
use crate::samples::{Line, are, fact};
use dl_base::OutOfMemory;
use std::alloc::Global;
use std::process::Abort;
use std::test::Fail;

/// Whether the reply is that these facts are lost.
fn are_lost(alloc: Global, reply: &Reply, lines: &[Line]) -> Result<bool, OutOfMemory> {
    match reply {
        Reply::Lost(lost) => are(alloc, lost.as_slice(), lines),
        _ => Ok(false),
    }
}

/// These facts are lost.
pub fn loses(rt: &impl Abort, alloc: Global, reply: Reply, lines: &[Line]) -> Result<(), Fail> {
    assert!(rt; are_lost(alloc, &reply, lines)?, "{reply:?}");
    Ok(())
}

/// Whether the reply is that these facts are the answers.
pub fn are_answers(alloc: Global, reply: &Reply, lines: &[Line]) -> Result<bool, OutOfMemory> {
    match reply {
        Reply::Answers(answers) => are(alloc, answers.as_slice(), lines),
        _ => Ok(false),
    }
}

/// The editor has no transaction.
pub fn has_none(rt: &impl Abort, reply: Reply) {
    assert!(rt; matches!(&reply, Reply::NoTransaction), "{reply:?}");
}

/// The editor has a transaction.
pub fn has_one(rt: &impl Abort, reply: Reply) {
    assert!(rt; matches!(&reply, Reply::AlreadyBegun), "{reply:?}");
}

/// The history has as many entries as it may have.
pub fn is_full(rt: &impl Abort, reply: Reply, limit: u64) {
    assert!(rt;
        matches!(&reply, Reply::HistoryFull(most) if *most == limit),
        "{reply:?}"
    );
}

/// The stored fact of this line contradicts the new ontology by itself.
pub fn is_alone(rt: &impl Abort, alloc: Global, reply: Reply, line: Line) -> Result<(), Fail> {
    match &reply {
        Reply::Alone(found) => assert!(rt; *found == fact(alloc, line)?, "{reply:?}"),
        _ => panic!(rt; "{reply:?}"),
    }
    Ok(())
}

/// The stored facts of these lines contradict the new ontology together.
pub fn is_pair(
    rt: &impl Abort,
    alloc: Global,
    reply: Reply,
    line: Line,
    other: Line,
) -> Result<(), Fail> {
    match &reply {
        Reply::Pair(one, two) => {
            assert!(rt; *one == fact(alloc, line)?, "{reply:?}");
            assert!(rt; *two == fact(alloc, other)?, "{reply:?}");
        }
        _ => panic!(rt; "{reply:?}"),
    }
    Ok(())
}
