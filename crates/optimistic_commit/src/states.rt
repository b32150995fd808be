ghost use Rattle.std.specs.Prelude.{◌≡◌, ◌≤◌, ◌∷◌, [], Contains, IfOk, length, map};
ghost use Rattle.std.specs.Arc.{arc_value};
ghost use Rattle.dl_base.specs.Clash.{IsConsistent};
ghost use Rattle.dl_base.specs.Histories.{IsLegal, IsVersion, in_force, in_force_at};
ghost use Rattle.dl_base.specs.Ontologies.{Extends, Knows};
ghost use Rattle.dl_base.specs.Validity.{IsOntology};
ghost use Rattle.dl_base.specs.declared.statements.Fact as fact_type;
ghost use Rattle.serial_history.specs.Replacing.{ReplacesBy};
ghost use Rattle.serial_history.specs.States.{AreLastVersions};

use dl_base::{Entry, Ontology, OutOfMemory, Versions};
use serial_history::{History, Replacing};
use std::alloc::Global;
use std::marker::Model;
use std::sync::Arc;
use update_engine::Rules;

/// A history that is committed to. Contracts see the opening ontology and facts, the limit, the entries, and the layers of the version. The
/// entries are a legal history, at most as many as the limit, the version is what they make of the opening facts, and its layers are the last
/// versions.
pub struct State<V: Versions> {
    pub(crate) history: History<V>,
}

impl<V: Versions> Model for State<V> {
    ghost use Rattle.serial_history.specs.States.{Seen};

    ghost Value = { Seen };

    ghost view = { λ s. s.history };
}

impl<V: Versions + Drop> Drop for State<V> {
    // Written out, so that a caller's proof takes it as one call.
    fn drop(self) {
        let State { history: _history } = self;
    }
}

impl<V: Versions + Drop> State<V> {
    ghost use Rattle.dl_base.specs.FactOrder.{AreSorted};

    /// A history without entries over this opening, of which it keeps a share.
    pub fn start(
        alloc: Global,
        rules: Arc<Rules>,
        opening: V,
        limit: u64,
    ) -> Result<State<V>, OutOfMemory>
        requires consistent { IsConsistent (arc_value rules).axioms (V.facts opening) }
        requires known { (f : fact_type.Fact) → Contains (V.facts opening) f → Knows (arc_value rules) f }
        requires one { V.layers opening ≡ V.facts opening ∷ [] }
        ensures { IfOk result (λ state. state ≡ record { opening = arc_value rules; facts = V.facts opening; limit = limit; entries = []; layers = V.facts opening ∷ [] }) }
    {
        let history = History::start(alloc, rules, opening, limit)?;
        Ok(State { history })
    }

    /// How many entries there are.
    pub fn length(&self) -> u64
        ensures count { result ≡ length self.now.entries }
        ensures room { result ≤ self.now.limit }
    {
        self.history.length()
    }

    /// How many entries there may be.
    pub fn limit(&self) -> u64
        ensures { result ≡ self.now.limit }
    {
        self.history.limit()
    }

    /// The entries of the history, the oldest first.
    pub fn entries(&self) -> &[Arc<Entry>]
        ensures entries { map arc_value result.now ≡ self.now.entries }
        ensures legal { IsLegal self.now.opening self.now.facts self.now.entries }
    {
        self.history.entries()
    }

    /// The facts that stand after all entries.
    pub fn version(&self) -> &V
        ensures stands { IsVersion self.now.facts self.now.entries (V.facts result.now) }
        ensures consistent { IsConsistent (in_force self.now.opening self.now.entries).axioms (V.facts result.now) }
        ensures known { (f : fact_type.Fact) → Contains (V.facts result.now) f → Knows (in_force self.now.opening self.now.entries) f }
        ensures layers { V.layers result.now ≡ self.now.layers }
        ensures last { AreLastVersions self.now.facts self.now.entries self.now.layers }
    {
        self.history.version()
    }

    /// The rules of the ontology in force now.
    pub fn rules(&self) -> &Arc<Rules>
        ensures { arc_value result.now ≡ in_force self.now.opening self.now.entries }
    {
        self.history.rules()
    }

    /// The rules of the ontology in force at this version, which is at most the number of entries.
    pub fn rules_at(&self, version: u64) -> &Arc<Rules>
        requires { version ≤ length self.now.entries }
        ensures { arc_value result.now ≡ in_force_at self.now.opening self.now.entries version }
    {
        self.history.rules_at(version)
    }

    /// Puts the ontology in force, by an entry of this editor that does nothing else: the stored facts stay. Refused in this order: at the limit
    /// (`Full`); where a stored fact contradicts the new axioms by itself, with the least one (`Alone`); where two do together, with those at the
    /// least places (`Pair`). All memory is taken before the state changes.
    pub fn replace(&mut self, editor: u32, ontology: Arc<Ontology>, rules: Arc<Rules>) -> Replacing
        requires ontology { IsOntology (arc_value ontology) }
        requires extends { Extends (arc_value ontology) (in_force self.old.opening self.old.entries) }
        requires compiled { arc_value rules ≡ arc_value ontology }
        ensures { ReplacesBy self.old editor (arc_value ontology) result self.new }
    {
        self.history.replace(editor, ontology, rules)
    }
}
