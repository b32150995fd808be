ghost use Rattle.std.specs.Prelude.{◌≡◌, ◌≤◌, ◌++◌, ◌∷◌, [], OnOk, IfErr, length, map};
ghost use Rattle.std.specs.Arc.{arc_value};
ghost use Rattle.dl_base.specs.Histories.{in_force, in_force_at, or_before, own, replacement};

use dl_base::Entry;
use std::alloc::Global;
use std::marker::Model;
use std::sync::Arc;
use update_engine::Rules;

/// The entries of a history, each of which several owners may share, with the rules in force at each version. Contracts see the opening
/// ontology and the entries.
#[derive(Drop)]
pub struct Log {
    opening: Arc<Rules>,
    entries: Vec<Arc<Entry>>,
    later: Vec<Arc<Rules>>,
}

impl Model for Log {
    ghost use Rattle.std.specs.Prelude.{◌≡◌, map};
    ghost use Rattle.std.specs.Arc.{arc_value};
    ghost use Rattle.serial_history.specs.States.{Logged, in_force_later};

    ghost Value = { Logged };

    ghost view = { λ l. record { opening = arc_value l.opening; entries = map arc_value l.entries.items } };

    ghost invariant = { λ l. map arc_value l.later.items ≡ in_force_later (arc_value l.opening) (map arc_value l.entries.items) };
}

impl Log {
    /// No entry, and the rules of the opening ontology.
    pub fn new(alloc: Global, opening: Arc<Rules>) -> Log
        ensures { result ≡ record { opening = arc_value opening; entries = [] } }
    {
        Log {
            opening,
            entries: Vec::new(alloc),
            later: Vec::new(alloc),
        }
    }

    /// The entries, the oldest first.
    pub fn as_slice(&self) -> &[Arc<Entry>]
        ensures { map arc_value result.now ≡ self.now.entries }
    {
        self.entries.as_slice()
    }

    /// How many there are.
    pub fn len(&self) -> usize
        ensures { result ≡ length self.now.entries }
    {
        self.entries.len()
    }

    /// The rules in force now.
    pub fn rules(&self) -> &Arc<Rules>
        ensures { arc_value result.now ≡ in_force self.now.opening self.now.entries }
    {
        self.rules_at(self.len() as u64)
    }

    /// The rules in force at this version.
    pub fn rules_at(&self, version: u64) -> &Arc<Rules>
        requires { version ≤ length self.now.entries }
        ensures { arc_value result.now ≡ in_force_at self.now.opening self.now.entries version }
    {
        if version == 0 {
            return &self.opening;
        }
        &self.later[version as usize - 1]
    }

    /// One entry more, and the rules in force after it. Where memory is refused, the entry comes back.
    pub fn push(&mut self, alloc: Global, entry: Entry, rules: Arc<Rules>) -> Result<(), Entry>
        requires { arc_value rules ≡ or_before (replacement entry) (in_force self.old.opening self.old.entries) }
        ensures ok { OnOk result (self.new ≡ record { opening = self.old.opening; entries = self.old.entries ++ entry ∷ [] }) }
        ensures refused { IfErr result (λ given. (given ≡ entry) × (self.new ≡ self.old)) }
    {
        if self.entries.reserve(1).is_err() || self.later.reserve(1).is_err() {
            return Err(entry);
        }
        match Arc::new(alloc, entry) {
            Ok(shared) => {
                self.entries.push_reserved(shared);
                self.later.push_reserved(rules);
                Ok(())
            }
            Err(failed) => Err(failed.value),
        }
    }

    /// How many are of this editor.
    pub fn count_of(&self, editor: u32) -> usize
        ensures { result ≡ length (own editor self.now.entries) }
    {
        let mut count = 0;
        for entry in self.as_slice() {
            if entry.editor == editor {
                count += 1;
            }
        }
        count
    }
}
