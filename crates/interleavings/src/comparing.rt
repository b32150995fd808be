use dl_base::{Changed, Entry};
use transaction::Reply;

/// Whether two replies say the same.
pub fn same_reply(one: &Reply, other: &Reply) -> bool {
    match (one, other) {
        (Reply::Begun(a), Reply::Begun(b)) => a == b,
        (Reply::Answers(a), Reply::Answers(b)) => a.as_slice() == b.as_slice(),
        (Reply::Lost(a), Reply::Lost(b)) => a.as_slice() == b.as_slice(),
        (Reply::IllFormed(a), Reply::IllFormed(b)) => a == b,
        (Reply::Committed(a), Reply::Committed(b)) => a == b,
        (Reply::ReadOnly(a), Reply::ReadOnly(b)) => a == b,
        (Reply::Conflict(a), Reply::Conflict(b)) => a == b,
        (Reply::HistoryFull(a), Reply::HistoryFull(b)) => a == b,
        (Reply::Replaced(a), Reply::Replaced(b)) => a == b,
        (Reply::Alone(a), Reply::Alone(b)) => a == b,
        (Reply::Pair(a, c), Reply::Pair(b, d)) => a == b && c == d,
        (Reply::TooManyRequests, Reply::TooManyRequests) => true,
        (Reply::Aborted, Reply::Aborted) => true,
        (Reply::AlreadyBegun, Reply::AlreadyBegun) => true,
        (Reply::NoTransaction, Reply::NoTransaction) => true,
        _ => false,
    }
}

/// Whether two entries are of one editor, with the same number, as many requests and the same changed facts, and both put an ontology in
/// force or neither does.
pub fn same_entry(one: &Entry, other: &Entry) -> bool {
    one.editor == other.editor
        && one.number == other.number
        && one.requests.as_slice().len() == other.requests.as_slice().len()
        && same_changes(one.changed.as_slice(), other.changed.as_slice())
        && one.replaced.is_some() == other.replaced.is_some()
}

fn same_changes(one: &[Changed], other: &[Changed]) -> bool {
    one.len() == other.len()
        && one
            .iter()
            .zip(other.iter())
            .all(|(a, b)| a.added == b.added && a.fact == b.fact)
}
