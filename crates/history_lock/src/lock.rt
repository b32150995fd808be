ghost use Rattle.std.specs.Prelude.{◌≡◌, ◌↔◌, ◌+◌, ◌<◌, ◌^◌, ◌++◌, [], ◌∷◌, true, false, length, IfOk, IfErr, OnErr, IsErr};
ghost use Rattle.history_lock.specs.declared.refusals.Refused.TheVariants.{OutOfMemory};
ghost use Rattle.history_lock.specs.Growth.{AreApart, IsOneMore, longer_of};
ghost use Rattle.history_lock.specs.Seats.{IsLater, first_seat};

use crate::histories::Grows;
use crate::refusals::{Refused, SplitRefusal};
use crate::rule::{LockTable, STATE};
use crate::seats::Seat;
use crate::steps;
use atomic_table::Table;
use std::alloc::Global;
use std::marker::Model;
use std::snapshot::Snapshot;
use std::sync::Wait;

/// The most passes that are made in the life of a lock, ended ones counted.
const MOST_PASSES: u32 = 1024;

/// The lock. Contracts see which one it is.
#[derive(Drop)]
pub struct HistoryLock<S: Grows> {
    table: LockTable<S>,
}

impl<S: Grows> Model for HistoryLock<S> {
    ghost use Rattle.std.specs.Prelude.{◌≡◌};
    ghost use Rattle.atomic_table.specs.Seated.{TableId, table_id_coded};

    ghost Value = { TableId };

    ghost coded = { table_id_coded };

    ghost view = { λ l. l.table.shared.table_id };

    ghost invariant = { λ l. (l.table.shared.table_id.words ≡ 3) × (l.table.shared.table_id.slots ≡ 1) };
}

impl<S: Grows> HistoryLock<S> {
    /// A lock round a state without entries, and its first seat, of editor 0.
    pub fn start(alloc: Global, state: S) -> Result<(HistoryLock<S>, Seat<S>), Refused<S>>
        requires none { S.entries state ≡ [] }
        requires limit { (S.opening state).limit < 2 ^ 64 }
        ensures ok { IfOk result (λ made. made.1 ≡ first_seat made.0 (S.opening state)) }
        ensures lost { IfErr result (λ refused. refused ≡ OutOfMemory state) }
    {
        let about = Snapshot::of(&state);
        let mut slots = Vec::new(alloc);
        if slots.reserve(1).is_err() {
            slots.destroy_empty();
            return Err(Refused::OutOfMemory(state));
        }
        slots.push_reserved(Some(state));
        match Table::new(alloc, &[0, 0, 0], slots, &about) {
            Ok((table, inner)) => Ok((
                HistoryLock { table },
                Seat {
                    inner,
                    editor: 0,
                    noted: 1,
                    seen: 0,
                },
            )),
            Err(refused) => Err(Refused::OutOfMemory(steps::taken_back(refused))),
        }
    }

    /// Waits for a turn and hands out the state by value. The seat is then in its turn and has seen the state's history, whose length is its new
    /// look. Of each editor that the seat carries the history has the entries seen before alone, and for the first seat every entry's editor
    /// is below the passes noted.
    pub fn turn<R: Wait>(&self, rt: &R, seat: &mut Seat<S>) -> S
        requires own { seat.old.lock ≡ self.now }
        requires out { seat.old.turning ≡ false }
        ensures state { (S.opening result ≡ seat.old.opening) × (S.entries result ≡ seat.new.seen) }
        ensures later { IsLater seat.old seat.new.seen }
        ensures seat { seat.new ≡ record seat.old { seen = seat.new.seen; looks = seat.old.looks ++ length seat.new.seen ∷ []; turning = true } }
    {
        let (state, count) = steps::take_turn(rt, &self.table.shared, &mut seat.inner);
        seat.seen = count;
        state
    }

    /// Ends the turn. The history is the one that the seat has seen; what else there is in the state may have changed.
    pub fn done(&self, seat: &mut Seat<S>, state: S)
        requires own { seat.old.lock ≡ self.now }
        requires turning { seat.old.turning ≡ true }
        requires state { (S.entries state ≡ seat.old.seen) × (S.opening state ≡ seat.old.opening) }
        ensures { seat.new ≡ record seat.old { turning = false } }
    {
        steps::give_back(&self.table.shared, &mut seat.inner, state);
    }

    /// Ends the turn with one more entry, of this seat's editor and with its next number. The seat has then seen it.
    pub fn append(&self, seat: &mut Seat<S>, state: S)
        requires own { seat.old.lock ≡ self.now }
        requires turning { seat.old.turning ≡ true }
        requires room { length seat.old.seen < seat.old.opening.limit }
        requires state { IsOneMore seat.old.editor seat.old.seen (S.entries state) × (S.opening state ≡ seat.old.opening) }
        ensures { seat.new ≡ record seat.old { turning = false; seen = S.entries state } }
    {
        steps::give_longer(&self.table.shared, &mut seat.inner, state);
        seat.seen += 1;
    }

    /// Splits a seat with an editor of its own off the first seat. It waits for nobody.
    pub fn split(&self, seat: &mut Seat<S>) -> Result<Seat<S>, SplitRefusal>
        requires own { seat.old.lock ≡ self.now }
        requires first { (seat.old.editor ≡ 0) × (seat.old.turning ≡ false) }
        ensures ok { IfOk result (λ new. (new ≡ record seat.old { editor = seat.old.noted; looks = []; noted = 0; carried = seat.old.noted ∷ [] })
            × (seat.new ≡ record seat.old { noted = seat.old.noted + 1 })) }
        ensures full { IsErr result ↔ (seat.old.noted ≡ 1024) }
        ensures unchanged { OnErr result (seat.new ≡ seat.old) }
    {
        if seat.noted == MOST_PASSES {
            return Err(SplitRefusal::PassesFull);
        }
        let inner = steps::split_off(&self.table.shared, &mut seat.inner);
        let editor = seat.noted;
        seat.noted += 1;
        Ok(Seat {
            inner,
            editor,
            noted: 0,
            seen: seat.seen,
        })
    }

    /// Takes in what another seat has seen and the editors that it carries, none of which this seat carries. It waits for nobody.
    pub fn join(&self, seat: &mut Seat<S>, other: Seat<S>)
        requires own { (seat.old.lock ≡ self.now) × (other.lock ≡ self.now) }
        requires out { (seat.old.turning ≡ false) × (other.turning ≡ false) }
        ensures seat { seat.new ≡ record seat.old { seen = longer_of seat.old.seen other.seen; carried = seat.old.carried ++ other.carried } }
        ensures this { IsLater seat.old seat.new.seen }
        ensures that { IsLater other seat.new.seen }
        ensures apart { AreApart seat.old.carried other.carried }
    {
        let Seat {
            inner,
            editor: _,
            noted: _,
            seen,
        } = other;
        steps::join_in(&self.table.shared, &mut seat.inner, inner);
        if seat.seen < seen {
            seat.seen = seen;
        }
    }

    /// Takes a last turn with this seat, and keeps the state.
    pub fn close<R: Wait>(self, rt: &R, mut seat: Seat<S>) -> S
    where
        S: Drop,
        requires own { seat.lock ≡ self }
        requires out { seat.turning ≡ false }
        ensures opening { S.opening result ≡ seat.opening }
        ensures later { IsLater seat (S.entries result) }
    {
        let state = self.turn(rt, &mut seat);
        let HistoryLock { table } = self;
        let mut closed = table.close();
        drop(closed.take(STATE));
        closed.free();
        state
    }
}
