ghost use Rattle.std.specs.Prelude.{◌≡◌, ◌<◌, ◌≤◌, ℕ, IfOk, IfErr, IfSome, None, length};
ghost use Rattle.dl_base.specs.Histories.{in_force_at};
ghost use Rattle.dl_base.specs.Staleness.{IsFirstMet, IsStale};
ghost use Rattle.serial_history.specs.Committing.{Commits};
ghost use Rattle.serial_history.specs.States.{AreAsked, AreTaken};

use crate::changing::{Update, update_of};
use crate::histories::History;
use crate::validating::validate;
use dl_base::{Entry, Fact, Versions};
use read_patterns::{Met, Parts, Recorded};
use std::sync::Arc;

impl<V: Versions + Drop> History<V> {
    /// What stands in the way of the parts of a transaction that began at a version of this history.
    pub fn first_met(&self, parts: &Parts) -> Option<Met>
        requires base { parts.now.base ≤ length self.now.entries }
        requires asked { AreAsked self.now parts.now.base parts.now.recorded }
        ensures first { IfSome result (λ met. IsFirstMet (in_force_at self.now.opening self.now.entries parts.now.base).axioms self.now.entries parts.now.base parts.now.recorded met.entry met.place met.request) }
        ensures fresh { result ≡ None → ¬ IsStale (in_force_at self.now.opening self.now.entries parts.now.base).axioms self.now.entries parts.now.base parts.now.recorded }
    {
        let rules = self.log.rules_at(parts.base);
        validate(
            rules.conflicts(),
            rules.entailers(),
            parts,
            self.log.as_slice(),
        )
    }

    /// Commits the parts of a transaction as an entry of this editor, whose changed facts are taken at the version that stands. Its number comes
    /// back, from 1. All memory is taken before the history changes; where it is refused, the parts come back.
    pub fn commit(&mut self, editor: u32, parts: Parts) -> Result<u64, Parts>
        requires room { length self.old.entries < self.old.limit }
        requires asked { AreAsked self.old parts.base parts.recorded }
        requires taken { AreTaken self.old parts }
        requires fresh { ¬ IsStale (in_force_at self.old.opening self.old.entries parts.base).axioms self.old.entries parts.base parts.recorded }
        ensures ok { IfOk result (λ number. Commits self.old editor parts number self.new) }
        ensures refused { IfErr result (λ given. (given ≡ parts) × (self.new ≡ self.old)) }
    {
        let Ok(Update { changed, next }) = update_of(self.alloc, &self.version, &parts) else {
            return Err(parts);
        };
        let Ok(rules) = Arc::try_clone(self.log.rules()) else {
            return Err(parts);
        };
        let number = self.log.count_of(editor) as u64;
        let Parts {
            base,
            recorded,
            added,
            removed,
        } = parts;
        let entry = Entry {
            editor,
            number,
            requests: recorded.into_requests(),
            changed,
            replaced: None,
        };
        match self.log.push(self.alloc, entry, rules) {
            Ok(()) => {
                self.version = next;
                Ok(self.log.len() as u64)
            }
            Err(entry) => Err(parts_of(base, entry, added, removed)),
        }
    }
}

/// The parts of an entry that wasn't taken.
fn parts_of(base: u64, entry: Entry, added: Vec<Fact>, removed: Vec<Fact>) -> Parts
    ensures { result ≡ record { base = base; recorded = entry.requests; added = added; removed = removed } }
{
    let Entry {
        requests,
        editor: _editor,
        number: _number,
        changed: _changed,
        replaced: _replaced,
    } = entry;
    Parts {
        base,
        recorded: Recorded::of(requests),
        added,
        removed,
    }
}
