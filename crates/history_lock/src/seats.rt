ghost use Rattle.std.specs.Prelude.{◌≡◌, Contains, length};

use crate::rule::TableSeat;
use std::marker::Model;

/// A seat at a lock. Contracts see the lock to which it belongs, its editor, the opening, the history that it has seen, its looks (the lengths that
/// the history had at its turns), the passes made that it has noted, the editors that it carries and whether it is in its turn. Where a seat is
/// dropped in its turn, no other turn comes.
#[derive(Drop)]
pub struct Seat<S> {
    pub(crate) inner: TableSeat<S>,
    pub(crate) editor: u32,
    pub(crate) noted: u32,
    pub(crate) seen: u64,
}

impl<S> Model for Seat<S> {
    ghost use Rattle.std.specs.Prelude.{◌≡◌, length};
    ghost use Rattle.history_lock.specs.Steps.{is_inside};
    ghost use Rattle.history_lock.specs.Seats.{SeatState, IsSound};

    ghost Value = { SeatState };

    ghost view = { λ s. record {
      lock = s.inner.table_id;
      editor = s.inner.me.0.editor;
      opening = s.inner.me.0.opening;
      seen = s.inner.me.0.seen;
      looks = s.inner.me.0.looks;
      noted = s.inner.me.0.noted;
      carried = s.inner.me.0.carried;
      turning = is_inside s.inner.me.0.stage;
    } };

    ghost invariant = { λ s. IsSound s.editor s.noted s.seen s.inner.me };
}

impl<S> Seat<S> {
    /// Its editor's number, which no call changes. The seat carries it.
    pub fn editor(&self) -> u32
        ensures number { result ≡ self.now.editor }
        ensures carried { Contains self.now.carried self.now.editor }
    {
        self.editor
    }

    /// The number of entries that it has seen.
    pub fn seen(&self) -> u64
        ensures { result ≡ length self.now.seen }
    {
        self.seen
    }
}
