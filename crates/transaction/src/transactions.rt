ghost use Rattle.std.specs.Prelude.{◌≡◌, ◌↔◌, ◌<◌, ◌≤◌, [], List, All, Contains, IsTrue, Err, IfOk, IfErr, OnErr, length};
ghost use Rattle.std.specs.Arc.{arc_value};
ghost use Rattle.dl_base.specs.Clash.{IsConsistent};
ghost use Rattle.dl_base.specs.Histories.{HasChange};
ghost use Rattle.dl_base.specs.Ontologies.{Knows, KnowsPattern, KnowsRequest};
ghost use Rattle.dl_base.specs.Transactions.{IsWell, Runs};
ghost use Rattle.dl_base.specs.declared.requests.Request.TheVariants as asked;
ghost use Rattle.dl_base.specs.declared.statements.Fact as fact_type;
ghost use Rattle.read_patterns.specs.Effects.{AreEffects};
ghost use Rattle.dl_base.specs.Updates.{IsWellFormed};
ghost use Rattle.transaction.specs.Serving.{BelongTo, IsServed};
ghost use Rattle.transaction.specs.declared.refusals.TxRefusal.TheVariants as refusal;
ghost use Rattle.update_engine.specs.Judging.{IsNamed};
ghost use Rattle.update_engine.specs.Stepping.{IsRefusal};
ghost use Rattle.update_engine.specs.declared.judging.IllFormed as ill_formed_type;

use crate::bases::Base;
use crate::effects::{Effect, effect_of};
use crate::refusals::TxRefusal;
use crate::requests::{answered, has_change, keep, keep_change};
use dl_base::{Fact, Ontology, Pattern, Request, Versions};
use fact_delta::Delta;
use read_patterns::{Parts, Recorded};
use std::alloc::Global;
use std::marker::{Brand, Model};
use std::sync::Arc;
use std::sync::ledger::Blank;
use update_engine::{Rules, StepRefusal};

/// How many requests a transaction may have.
pub const MOST_REQUESTS: usize = 10_000;

/// Requests taken one after another over the version where the transaction began, which stays as it is. What they put and take is kept
/// beside it, so that a transaction costs what its requests touch.
pub struct Transaction<V: Versions> {
    alloc: Global,
    rules: Arc<Rules>,
    base: u64,
    recorded: Recorded,
    stored: Delta<V>,
    put: Vec<Fact>,
    taken: Vec<Fact>,
}

impl<V: Versions> Model for Transaction<V> {
    ghost use Rattle.std.specs.Arc.{arc_value};
    ghost use Rattle.fact_delta.specs.Deltas.{standing};
    ghost use Rattle.transaction.specs.Serving.{Open, IsOpen};

    ghost Value = { Open };

    ghost view = { λ t. record { ontology = arc_value t.rules; number = t.base; base = t.stored.base; requests = t.recorded; stored = standing t.stored } };

    ghost invariant = { λ t. IsOpen (arc_value t.rules) t.stored.base t.recorded (standing t.stored) t.put.items t.taken.items };
}

impl<V: Versions + Drop> Drop for Transaction<V> {
    // Written out, so that a caller's proof takes it as one call.
    fn drop(self) {
        let Transaction {
            alloc: _alloc,
            rules: _rules,
            base: _base,
            recorded: _recorded,
            stored: _stored,
            put: _put,
            taken: _taken,
        } = self;
    }
}

impl<V: Versions + Drop> Transaction<V> {
    /// No request so far, over a version that is consistent and known, and that has this number. It takes no memory.
    pub fn at(alloc: Global, rules: Arc<Rules>, version: V, base: u64) -> Transaction<V>
        requires consistent { IsConsistent (arc_value rules).axioms (V.facts version) }
        requires known { (f : fact_type.Fact) → Contains (V.facts version) f → Knows (arc_value rules) f }
        ensures { result ≡ record { ontology = arc_value rules; number = base; base = V.facts version; requests = []; stored = V.facts version } }
    {
        let _terms = rules.ontology().terms();
        let _facts = version.count();
        Transaction {
            alloc,
            rules,
            base,
            recorded: Recorded::new(alloc),
            stored: Delta::over(alloc, version),
            put: Vec::new(alloc),
            taken: Vec::new(alloc),
        }
    }

    /// The facts that follow from the stored ones and match, in order. The ask is recorded.
    pub fn ask(&mut self, pattern: &Pattern) -> Result<Vec<Fact>, TxRefusal>
        requires known { KnowsPattern self.old.ontology pattern.now }
        ensures ok { IfOk result (λ answers. IsServed self.old (asked.Ask pattern.now) answers.items self.new) }
        // Too many requests, then want of memory.
        ensures too_many { (result ≡ Err refusal.TooManyRequests) ↔ (length self.old.requests ≡ 10000) }
        ensures never_ill_formed { (name : ill_formed_type.IllFormed) → ¬ (result ≡ Err (refusal.IllFormed name)) }
        ensures memory { (result ≡ Err refusal.OutOfMemory) → length self.old.requests < 10000 }
        ensures refused { OnErr result (self.new ≡ self.old) }
    {
        if self.recorded.len() >= MOST_REQUESTS {
            return Err(TxRefusal::TooManyRequests);
        }
        let answers = answered::<V, Brand>(
            self.alloc,
            &self.rules,
            &self.stored,
            pattern,
            Blank::new(1),
        )?;
        let request = Request::Ask(pattern.copy(self.alloc)?);
        keep(&mut self.recorded, request)?;
        Ok(answers)
    }

    /// What the change loses of the closure, in order. The change is recorded.
    pub fn change(&mut self, inserts: &[Fact], deletes: &[Fact]) -> Result<Vec<Fact>, TxRefusal>
        requires known { All (Knows self.old.ontology) inserts.now × All (Knows self.old.ontology) deletes.now }
        ensures ok { IfOk result (λ lost. IsServed self.old (asked.Change inserts.now deletes.now) lost.items self.new) }
        // Too many requests, then a change that contradicts itself, then want of memory.
        ensures too_many { (result ≡ Err refusal.TooManyRequests) ↔ (length self.old.requests ≡ 10000) }
        ensures ill_formed { (name : ill_formed_type.IllFormed) → (result ≡ Err (refusal.IllFormed name))
            ↔ ((length self.old.requests < 10000) × IsNamed self.old.ontology.axioms inserts.now deletes.now name) }
        ensures memory { (result ≡ Err refusal.OutOfMemory) → (length self.old.requests < 10000) × IsWellFormed self.old.ontology.axioms inserts.now deletes.now }
        ensures refused { OnErr result (self.new ≡ self.old) }
    {
        if self.recorded.len() >= MOST_REQUESTS {
            return Err(TxRefusal::TooManyRequests);
        }
        match self.make(inserts, deletes) {
            Ok(lost) => Ok(lost),
            Err(StepRefusal::IllFormed(name)) => Err(TxRefusal::IllFormed(name)),
            Err(StepRefusal::OutOfMemory) => Err(TxRefusal::OutOfMemory),
        }
    }

    /// What the change loses, where there is room for a change.
    fn make(&mut self, inserts: &[Fact], deletes: &[Fact]) -> Result<Vec<Fact>, StepRefusal>
        requires room { length self.old.requests < 10000 }
        requires known { All (Knows self.old.ontology) inserts.now × All (Knows self.old.ontology) deletes.now }
        ensures ok { IfOk result (λ lost. IsServed self.old (asked.Change inserts.now deletes.now) lost.items self.new) }
        ensures named { IfErr result (IsRefusal self.old.ontology.axioms inserts.now deletes.now) }
        ensures refused { OnErr result (self.new ≡ self.old) }
    {
        let effect = effect_of(
            self.alloc,
            &self.rules,
            &self.stored,
            self.put.as_slice(),
            self.taken.as_slice(),
            inserts,
            deletes,
        )?;
        keep_change(self.alloc, &mut self.recorded, inserts, deletes)?;
        let Effect {
            put,
            taken,
            moved,
            lost,
        } = effect;
        self.stored.take(moved);
        self.put = put;
        self.taken = taken;
        Ok(lost)
    }

    /// The number of the version where it began.
    pub fn base(&self) -> u64
        ensures { result ≡ self.now.number }
    {
        self.base
    }

    /// Its requests, in order. There are at most 10,000, known and well-formed; what they make of the base is stored.
    pub fn requests(&self) -> &[Request]
        ensures same { result.now ≡ self.now.requests }
        ensures few { length self.now.requests ≤ 10000 }
        ensures known { All (KnowsRequest self.now.ontology) self.now.requests }
        ensures well { All (IsWell self.now.ontology.axioms) self.now.requests }
        ensures run { (replies : List (List fact_type.Fact)) × Runs self.now.ontology.axioms self.now.base self.now.requests replies self.now.stored }
    {
        self.recorded.requests()
    }

    /// Whether one of its requests is a change.
    pub fn has_change(&self) -> bool
        ensures { IsTrue result ↔ HasChange self.now.requests }
    {
        has_change(self.recorded.requests())
    }

    pub fn ontology(&self) -> &Ontology
        ensures { result.now ≡ self.now.ontology }
    {
        self.rules.ontology()
    }

    pub fn rules(&self) -> &Arc<Rules>
        ensures { arc_value result.now ≡ self.now.ontology }
    {
        &self.rules
    }

    /// The end of a transaction without a change: the number of the version where it began.
    pub fn finish(self) -> u64
        requires { ¬ HasChange self.requests }
        ensures { result ≡ self.number }
    {
        self.base
    }

    /// What it hands over to be committed, and what remains beside that. It takes no memory.
    pub fn into_parts(self) -> (Base<V>, Parts)
        ensures rest { result.0 ≡ record { ontology = self.ontology; base = self.base; stored = self.stored } }
        ensures number { result.1.base ≡ self.number }
        ensures requests { result.1.recorded ≡ self.requests }
        ensures belong { BelongTo result.0 result.1 }
        ensures effects { AreEffects self.ontology.axioms self.base result.1.recorded result.1.added.items result.1.removed.items }
    {
        let Transaction {
            alloc,
            rules,
            base,
            recorded,
            stored,
            put,
            taken,
        } = self;
        let parts = Parts {
            base,
            recorded,
            added: put,
            removed: taken,
        };
        (Base::of(alloc, rules, stored), parts)
    }

    /// The transaction that was taken apart so. It takes no memory.
    pub fn from_parts(base: Base<V>, parts: Parts) -> Transaction<V>
        requires { BelongTo base parts }
        ensures { result ≡ record { ontology = base.ontology; number = parts.base; base = base.base; requests = parts.recorded; stored = base.stored } }
    {
        let (alloc, rules, stored) = base.opened();
        let Parts {
            base,
            recorded,
            added,
            removed,
        } = parts;
        Transaction {
            alloc,
            rules,
            base,
            recorded,
            stored,
            put: added,
            taken: removed,
        }
    }
}

#[cfg(test)]
mod tests;
