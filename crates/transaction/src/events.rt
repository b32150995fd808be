use dl_base::{Fact, Facts, Ontology, Pattern};
use read_patterns::Met;
use std::sync::Arc;
use update_engine::IllFormed;

/// What an editor does. Editors are told apart by their numbers.
#[derive(Debug, Drop)]
pub enum Event {
    /// A transaction begins.
    Begin(u32),
    /// A question about what follows from the facts.
    Ask(u32, Pattern),
    /// Facts to insert and facts to delete, all at once.
    Change(u32, Facts, Facts),
    /// The transaction ends and becomes an entry of the history, if it has a change.
    Commit(u32),
    /// The transaction ends and leaves nothing.
    Abort(u32),
    /// This ontology takes the place of the one in force.
    Replace(u32, Arc<Ontology>),
}

/// What an event is answered.
#[derive(Debug, Drop)]
pub enum Reply {
    /// A transaction has begun at the version of this number.
    Begun(u64),
    /// The facts that follow and match.
    Answers(Facts),
    /// The facts that left the closure.
    Lost(Facts),
    /// The change contradicts itself, and isn't recorded.
    IllFormed(IllFormed),
    /// The transaction has as many requests as it may have.
    TooManyRequests,
    /// The transaction is the entry of this number, from 1.
    Committed(u64),
    /// The transaction had no change; it had begun at the version of this number.
    ReadOnly(u64),
    /// What was committed since stands in the way, and the transaction has ended.
    Conflict(Met),
    /// The history has as many entries as it may have, this many. A transaction stays begun.
    HistoryFull(u64),
    /// The transaction has ended and left nothing.
    Aborted,
    AlreadyBegun,
    NoTransaction,
    /// The ontology is in force from the entry of this number on, counted from 1.
    Replaced(u64),
    /// The least stored fact that the ontology contradicts by itself; nothing has changed.
    Alone(Fact),
    /// The first two stored facts that the ontology contradicts together; nothing has changed.
    Pair(Fact, Fact),
}
