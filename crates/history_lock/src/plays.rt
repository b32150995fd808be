//! What each kind of step tells the seat that makes it.
use crate::histories::Grows;
use crate::rule::View;
use atomic_table::{Join, Play, Split};

/// A ticket is drawn.
pub struct DrawTicket;

impl<S> Play<Option<S>, View> for DrawTicket {
    ghost use Rattle.history_lock.specs.Steps.{draws};

    ghost then = { draws };
}

/// A look at whose turn it is; the seat that has the ticket takes the state.
pub struct TryTurn;

impl<S: Grows> Play<Option<S>, View> for TryTurn {
    ghost use Rattle.history_lock.specs.Steps.{tries};

    ghost then = { tries S.opening S.entries };
}

/// The history is seen.
pub struct SeeHistory;

impl<S> Play<Option<S>, View> for SeeHistory {
    ghost use Rattle.history_lock.specs.Steps.{sees};

    ghost then = { sees };
}

/// The state in the slot has one entry more.
pub struct AddEntry;

impl<S: Grows> Play<Option<S>, View> for AddEntry {
    ghost use Rattle.history_lock.specs.Steps.{adds};

    ghost then = { adds S.opening S.entries };
}

/// The turn is passed on, and the slot given back.
pub struct PassTurn;

impl<S> Play<Option<S>, View> for PassTurn {
    ghost use Rattle.history_lock.specs.Steps.{passes};

    ghost then = { passes };
}

/// A new seat is split off the first.
pub struct SplitSeat;

impl Split<View> for SplitSeat {
    ghost use Rattle.history_lock.specs.Steps.{first_after, new_view};

    ghost left = { first_after };

    ghost right = { new_view };
}

/// Two seats are joined.
pub struct JoinSeats;

impl Join<View> for JoinSeats {
    ghost use Rattle.history_lock.specs.Steps.{joined_view, spent_view};

    ghost both = { joined_view };

    ghost spent = { spent_view };
}

/// What both seats had seen is known of the history of the joined one.
pub struct SettleJoin;

impl<S> Play<Option<S>, View> for SettleJoin {
    ghost use Rattle.history_lock.specs.Steps.{settles};

    ghost then = { settles };
}
