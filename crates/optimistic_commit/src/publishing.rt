ghost use Rattle.std.specs.Prelude.{◌≡◌, ◌<◌, ◌≤◌, ℕ, length};
ghost use Rattle.dl_base.specs.Histories.{in_force_at};
ghost use Rattle.dl_base.specs.Staleness.{IsFirstMet};
ghost use Rattle.optimistic_commit.specs.Publishing.{Publishes};
ghost use Rattle.serial_history.specs.States.{AreAsked, AreTaken};

use crate::states::State;
use dl_base::{Entry, Versions};
use read_patterns::{Met, Parts};
use std::sync::Arc;

/// What a commit comes to: the number of its entry, from 1; what stands in its way, with that entry; or the parts come back, since the history has as
/// many entries as it may have, or since memory was refused.
#[derive(Drop)]
pub enum Published {
    Committed(u64),
    Conflict(Met, Arc<Entry>),
    Full(Parts),
    OutOfMemory(Parts),
}

impl<V: Versions + Drop> State<V> {
    /// Commits the parts of a transaction as an entry of this editor, whose changed facts are taken at the version that stands. First the limit is
    /// looked at, then what stands in the way. All memory is taken before the state changes.
    pub fn publish(&mut self, editor: u32, parts: Parts) -> Published
        requires base { parts.base ≤ length self.old.entries }
        requires asked { AreAsked self.old parts.base parts.recorded }
        requires taken { AreTaken self.old parts }
        ensures { Publishes self.old editor parts result self.new }
    {
        if self.history.length() >= self.history.limit() {
            return Published::Full(parts);
        }
        if let Some(met) = self.history.first_met(&parts) {
            return self.conflict(met, parts);
        }
        match self.history.commit(editor, parts) {
            Ok(number) => Published::Committed(number),
            Err(parts) => Published::OutOfMemory(parts),
        }
    }

    /// The entry in the way has one more owner.
    fn conflict(&self, met: Met, parts: Parts) -> Published
        requires room { length self.now.entries < self.now.limit }
        requires asked { AreAsked self.now parts.base parts.recorded }
        requires first { IsFirstMet (in_force_at self.now.opening self.now.entries parts.base).axioms self.now.entries parts.base parts.recorded met.entry met.place met.request }
        ensures { (editor : ℕ) → Publishes self.now editor parts result self.now }
    {
        let entry = &self.history.entries()[met.entry as usize - 1];
        match Arc::try_clone(entry) {
            Ok(shared) => Published::Conflict(met, shared),
            Err(_) => Published::OutOfMemory(parts),
        }
    }
}
