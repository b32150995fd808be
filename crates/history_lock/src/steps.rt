//! The calls of the lock over the table's own seats, step by step.
ghost use Rattle.std.specs.Prelude.{Some, ◌≡◌, ◌<◌, ◌++◌, [], ◌∷◌, length};
ghost use Rattle.history_lock.specs.declared.rule.Stage.TheVariants.{Taken};
ghost use Rattle.history_lock.specs.Growth.{AreApart, IsOneMore, longer_of};
ghost use Rattle.history_lock.specs.Steps.{IsTurning, IsOut, Enters, Leaves, ViewContinues, first_after, new_view};

use crate::histories::Grows;
use crate::plays::{
    AddEntry, DrawTicket, JoinSeats, PassTurn, SeeHistory, SettleJoin, SplitSeat, TryTurn,
};
use crate::rule::{COUNT, NEXT, SERVING, STATE, SharedTable, TableSeat};
use atomic_table::Refused;
use std::alloc::Global;
use std::sync::Wait;
use std::thread;

/// How often a waiting seat looks and yields before it parks.
const LOOKS_BEFORE_PARKING: u32 = 32;

/// Waits for the turn, and takes the state out of the slot. It also gives the number of entries.
pub(crate) fn take_turn<S: Grows, R: Wait>(
    rt: &R,
    table: &SharedTable<S>,
    seat: &mut TableSeat<S>,
) -> (S, u64)
    requires table { (seat.old.table_id ≡ table.now.table_id) × (table.now.table_id.words ≡ 3) × (table.now.table_id.slots ≡ 1) }
    requires out { IsOut seat.old.me }
    ensures same { (seat.new.table_id ≡ seat.old.table_id) × (seat.new.id ≡ seat.old.id) × IsTurning seat.new.me }
    ensures state { (S.opening result.0 ≡ seat.old.me.0.opening) × Enters seat.old.me.0 seat.new.me.0 (S.entries result.0) }
    ensures count { result.1 ≡ length seat.new.me.0.seen }
{
    let ticket = table.fetch_add::<DrawTicket>(seat, NEXT, 1);
    let mut looks = 0;
    for _ in rt.forever() {
        let serving = table.load::<TryTurn>(seat, SERVING);
        if serving == ticket {
            return take_state(table, seat);
        }
        looks = wait_on(rt, table, serving, looks);
    }
    unreachable!()
}

/// Yields, or parks until the turn is passed on if it has yielded often. It gives how often it has.
fn wait_on<S: Grows, R: Wait>(rt: &R, table: &SharedTable<S>, serving: u64, looks: u32) -> u32
    requires { SERVING < table.now.table_id.words }
{
    if looks < LOOKS_BEFORE_PARKING {
        thread::yield_now();
        return looks + 1;
    }
    table.park(rt, SERVING, (serving % (1 << 32)) as u32);
    looks
}

/// Moves the state out of the slot taken, and sees its history.
fn take_state<S: Grows>(table: &SharedTable<S>, seat: &mut TableSeat<S>) -> (S, u64)
    requires table { (seat.old.table_id ≡ table.now.table_id) × (table.now.table_id.words ≡ 3) × (table.now.table_id.slots ≡ 1) }
    requires taken { (t : _) × (x : S) × (seat.old.me.0.stage ≡ Taken t (S.entries x)) × (seat.old.me.1 ≡ (0, Some x) ∷ []) × (S.opening x ≡ seat.old.me.0.opening) }
    ensures same { (seat.new.table_id ≡ seat.old.table_id) × (seat.new.id ≡ seat.old.id) × IsTurning seat.new.me }
    ensures state { (S.opening result.0 ≡ seat.old.me.0.opening) × Enters seat.old.me.0 seat.new.me.0 (S.entries result.0) }
    ensures count { result.1 ≡ length seat.new.me.0.seen }
{
    let state = table.exchange(seat, STATE, None).unwrap();
    let count = table.load::<SeeHistory>(seat, COUNT);
    (state, count)
}

/// Moves the state into the slot and passes the turn on. Nothing was added.
pub(crate) fn give_back<S: Grows>(table: &SharedTable<S>, seat: &mut TableSeat<S>, state: S)
    requires table { (seat.old.table_id ≡ table.now.table_id) × (table.now.table_id.words ≡ 3) × (table.now.table_id.slots ≡ 1) }
    requires turning { IsTurning seat.old.me }
    requires state { (S.entries state ≡ seat.old.me.0.seen) × (S.opening state ≡ seat.old.me.0.opening) }
    ensures same { (seat.new.table_id ≡ seat.old.table_id) × (seat.new.id ≡ seat.old.id) × IsOut seat.new.me }
    ensures view { Leaves seat.old.me.0 seat.new.me.0 seat.old.me.0.seen }
{
    let was = table.exchange(seat, STATE, Some(state));
    let None = was else { unreachable!() };
    let served = table.fetch_add::<PassTurn>(seat, SERVING, 1);
    wake_waiting(table, served);
}

/// Moves the state with one more entry of this seat's editor into the slot, counts the entry and passes the turn on.
pub(crate) fn give_longer<S: Grows>(table: &SharedTable<S>, seat: &mut TableSeat<S>, state: S)
    requires table { (seat.old.table_id ≡ table.now.table_id) × (table.now.table_id.words ≡ 3) × (table.now.table_id.slots ≡ 1) }
    requires turning { IsTurning seat.old.me }
    requires room { length seat.old.me.0.seen < seat.old.me.0.opening.limit }
    requires state { IsOneMore seat.old.me.0.editor seat.old.me.0.seen (S.entries state) × (S.opening state ≡ seat.old.me.0.opening) }
    ensures same { (seat.new.table_id ≡ seat.old.table_id) × (seat.new.id ≡ seat.old.id) × IsOut seat.new.me }
    ensures view { Leaves seat.old.me.0 seat.new.me.0 (S.entries state) }
{
    let was = table.exchange(seat, STATE, Some(state));
    let None = was else { unreachable!() };
    table.fetch_add::<AddEntry>(seat, COUNT, 1);
    let ended = table.fetch_add::<PassTurn>(seat, SERVING, 1);
    wake_waiting(table, ended);
}

/// Wakes the threads that park, if a ticket after the one served was drawn. Whoever draws one later finds the turn passed on.
fn wake_waiting<S: Grows>(table: &SharedTable<S>, served: u64)
    requires { table.now.table_id.words ≡ 3 }
{
    if table.peek(NEXT) != served.wrapping_add(1) {
        table.wake_all(SERVING);
    }
}

/// Splits a new seat off the first one.
pub(crate) fn split_off<S: Grows>(table: &SharedTable<S>, seat: &mut TableSeat<S>) -> TableSeat<S>
    requires table { (seat.old.table_id ≡ table.now.table_id) × (table.now.table_id.words ≡ 3) }
    requires first { (seat.old.me.0.editor ≡ 0) × IsOut seat.old.me × (seat.old.me.0.noted < 1024) }
    ensures same { (seat.new.table_id ≡ seat.old.table_id) × (seat.new.id ≡ seat.old.id) × (seat.new.me ≡ (first_after seat.old.me.0, seat.old.me.1)) }
    ensures new { (result.table_id ≡ seat.old.table_id) × (result.me ≡ (new_view seat.old.me.0, [])) }
{
    table.split_seat::<SplitSeat>(seat)
}

/// Joins another seat into this one. What both had seen is known of the history that this one has then seen.
pub(crate) fn join_in<S: Grows>(
    table: &SharedTable<S>,
    seat: &mut TableSeat<S>,
    other: TableSeat<S>,
)
    requires table { (seat.old.table_id ≡ table.now.table_id) × (other.table_id ≡ table.now.table_id) × (table.now.table_id.words ≡ 3) }
    requires out { IsOut seat.old.me × IsOut other.me }
    ensures same { (seat.new.table_id ≡ seat.old.table_id) × (seat.new.id ≡ seat.old.id) × IsOut seat.new.me }
    ensures view { seat.new.me.0 ≡ record seat.old.me.0 { seen = longer_of seat.old.me.0.seen other.me.0.seen; carried = seat.old.me.0.carried ++ other.me.0.carried } }
    ensures this { ViewContinues seat.old.me.0 seat.new.me.0.seen }
    ensures that { ViewContinues other.me.0 seat.new.me.0.seen }
    ensures apart { AreApart seat.old.me.0.carried other.me.0.carried }
{
    table.join_seat::<JoinSeats>(seat, other);
    table.load::<SettleJoin>(seat, NEXT);
}

/// The state that a table had no memory for.
pub(crate) fn taken_back<S>(refused: Refused<Option<S>, Global>) -> S
    requires { (x : S) × (refused.slots.items ≡ Some x ∷ []) }
    ensures { refused.slots.items ≡ Some result ∷ [] }
{
    let Refused { mut slots } = refused;
    let last = slots.pop();
    slots.destroy_empty();
    let Some(Some(state)) = last else {
        unreachable!()
    };
    state
}
