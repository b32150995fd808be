ghost use Rattle.std.specs.Prelude.{◌≡◌, ◌+◌, [], false, length};

use crate::still::Still;
use history_lock::{HistoryLock, Seat};
use std::sync::Wait;
use std::thread;
use std::time::{Clock, Duration};

/// A seat in no turn, beside its lock. It has seen no entry.
#[derive(Drop)]
pub struct Worker<'a> {
    lock: &'a HistoryLock<Still>,
    seat: Seat<Still>,
    ghost placed: { (seat.lock ≡ lock.now) × (seat.turning ≡ false) × (seat.seen ≡ []) },
}

impl<'a> Worker<'a> {
    pub fn new(lock: &'a HistoryLock<Still>, seat: Seat<Still>) -> Worker<'a>
        requires { (seat.lock ≡ lock.now) × (seat.turning ≡ false) × (seat.seen ≡ []) }
    {
        Worker { lock, seat }
    }

    /// Takes so many turns and holds each for so long.
    pub fn take_turns<R: Wait + Clock>(&mut self, rt: &R, turns: u64, hold: Duration)
        ensures { length self.new.seat.looks ≡ length self.old.seat.looks + turns }
    {
        for _ in 0..turns {
            let state = self.lock.turn(rt, &mut self.seat);
            if !hold.is_zero() {
                thread::sleep(rt, hold);
            }
            self.lock.done(&mut self.seat, state);
        }
    }
}
