ghost use Rattle.std.specs.Prelude.{◌≡◌, ◌≤◌, ◌∷◌, [], Contains, IfOk, length, map};
ghost use Rattle.std.specs.Arc.{arc_value};
ghost use Rattle.dl_base.specs.Clash.{IsConsistent};
ghost use Rattle.dl_base.specs.Histories.{IsLegal, IsVersion, in_force, in_force_at};
ghost use Rattle.dl_base.specs.Ontologies.{Knows};
ghost use Rattle.dl_base.specs.declared.statements.Fact as fact_type;
ghost use Rattle.serial_history.specs.States.{AreLastVersions};

use crate::log::Log;
use dl_base::{Entry, OutOfMemory, Versions};
use std::alloc::Global;
use std::marker::Model;
use std::sync::Arc;
use update_engine::Rules;

/// A history that is committed to: its opening, the entries since, and the version that stands. Contracts see the opening ontology and facts, the
/// limit, the entries, and the layers of the version. The entries are a legal history, at most as many as the limit, the version is what they
/// make of the opening facts, and its layers are the last versions.
pub struct History<V: Versions> {
    pub(crate) alloc: Global,
    pub(crate) opening: V,
    pub(crate) limit: u64,
    pub(crate) log: Log,
    pub(crate) version: V,
}

impl<V: Versions> Model for History<V> {
    ghost use Rattle.serial_history.specs.States.{Seen, IsKept};

    ghost Value = { Seen };

    ghost view = { λ s. record { opening = s.log.opening; facts = V.facts s.opening; limit = s.limit; entries = s.log.entries; layers = V.layers s.version } };

    ghost invariant = { λ s. IsKept s.log.opening (V.facts s.opening) s.limit s.log.entries (V.facts s.version) (V.layers s.version) };
}

impl<V: Versions + Drop> Drop for History<V> {
    // Written out, so that a caller's proof takes it as one call.
    fn drop(self) {
        let History {
            alloc: _alloc,
            opening: _opening,
            limit: _limit,
            log: _log,
            version: _version,
        } = self;
    }
}

impl<V: Versions + Drop> History<V> {
    ghost use Rattle.dl_base.specs.FactOrder.{AreSorted};

    /// A history without entries over this opening, of which it keeps a share.
    pub fn start(
        alloc: Global,
        rules: Arc<Rules>,
        opening: V,
        limit: u64,
    ) -> Result<History<V>, OutOfMemory>
        requires consistent { IsConsistent (arc_value rules).axioms (V.facts opening) }
        requires known { (f : fact_type.Fact) → Contains (V.facts opening) f → Knows (arc_value rules) f }
        requires one { V.layers opening ≡ V.facts opening ∷ [] }
        ensures { IfOk result (λ state. state ≡ record { opening = arc_value rules; facts = V.facts opening; limit = limit; entries = []; layers = V.facts opening ∷ [] }) }
    {
        let _terms = rules.ontology().terms();
        let _facts = opening.count();
        let version = opening.share()?;
        Ok(History {
            alloc,
            opening,
            limit,
            log: Log::new(alloc, rules),
            version,
        })
    }

    /// How many entries there are.
    pub fn length(&self) -> u64
        ensures count { result ≡ length self.now.entries }
        ensures room { result ≤ self.now.limit }
    {
        self.log.len() as u64
    }

    /// How many entries there may be.
    pub fn limit(&self) -> u64
        ensures { result ≡ self.now.limit }
    {
        self.limit
    }

    /// The entries of the history, the oldest first.
    pub fn entries(&self) -> &[Arc<Entry>]
        ensures entries { map arc_value result.now ≡ self.now.entries }
        ensures legal { IsLegal self.now.opening self.now.facts self.now.entries }
    {
        self.log.as_slice()
    }

    /// The facts that stand after all entries.
    pub fn version(&self) -> &V
        ensures stands { IsVersion self.now.facts self.now.entries (V.facts result.now) }
        ensures consistent { IsConsistent (in_force self.now.opening self.now.entries).axioms (V.facts result.now) }
        ensures known { (f : fact_type.Fact) → Contains (V.facts result.now) f → Knows (in_force self.now.opening self.now.entries) f }
        ensures layers { V.layers result.now ≡ self.now.layers }
        ensures last { AreLastVersions self.now.facts self.now.entries self.now.layers }
    {
        &self.version
    }

    /// The rules of the ontology in force now.
    pub fn rules(&self) -> &Arc<Rules>
        ensures { arc_value result.now ≡ in_force self.now.opening self.now.entries }
    {
        self.log.rules()
    }

    /// The rules of the ontology in force at this version, which is at most the number of entries.
    pub fn rules_at(&self, version: u64) -> &Arc<Rules>
        requires { version ≤ length self.now.entries }
        ensures { arc_value result.now ≡ in_force_at self.now.opening self.now.entries version }
    {
        self.log.rules_at(version)
    }
}
