//! The table of the lock and the rule that it keeps. Word 0 is the number of tickets drawn, word 1 the ticket whose turn it is, word 2 the
//! number of entries. The slot holds the state, or `None` while the state is handed out.
use crate::histories::{Grows, Opening};
use atomic_table::{Shared, Table, TableRule};
use dl_base::Entry;
use std::alloc::Global;
use std::collections::LinkedList;
use std::marker::PhantomData;
use std::snapshot::Snapshot;

/// The tickets drawn.
pub(crate) const NEXT: usize = 0;
/// The ticket whose turn it is.
pub(crate) const SERVING: usize = 1;
/// The number of entries.
pub(crate) const COUNT: usize = 2;
/// The slot of the state.
pub(crate) const STATE: usize = 0;

/// What a seat was before it was joined with another.
pub struct Before {
    pub editor: u32,
    pub noted: u64,
    pub seen: LinkedList<Entry>,
    pub carried: LinkedList<u32>,
}

/// How far a seat is in its turn.
pub enum Stage {
    /// Joined into another seat.
    Spent,
    /// In no turn.
    Out,
    /// Just joined: both seats as they were.
    Joined(Before, Before),
    /// It has drawn this ticket.
    Waiting(u64),
    /// In its turn, with this ticket. It has noted the history of the state that it took, and has not seen it yet.
    Taken(u64, LinkedList<Entry>),
    /// In its turn, and it has seen the history.
    Looked(u64),
}

/// What the rule knows of a seat. No value of it is made.
pub struct View {
    pub stage: Stage,
    pub editor: u32,
    pub opening: Opening,
    pub seen: LinkedList<Entry>,
    pub looks: LinkedList<u64>,
    pub noted: u64,
    pub carried: LinkedList<u32>,
}

pub struct Turns<S> {
    state: PhantomData<S>,
}

impl<S: Grows> TableRule<Option<S>, View, Snapshot<S>> for Turns<S> {
    ghost use Rattle.history_lock.specs.Rule.{MeetsRule, first_view};

    ghost holds = { λ key. MeetsRule S.opening S.entries };

    ghost first = { λ key. first_view (S.opening key.value) };
}

pub type LockTable<S> = Table<Option<S>, View, Snapshot<S>, Turns<S>, Global>;

pub type SharedTable<S> = Shared<Option<S>, View, Snapshot<S>, Turns<S>>;

pub type TableSeat<S> = atomic_table::Seat<Option<S>, View>;
