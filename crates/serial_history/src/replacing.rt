ghost use Rattle.std.specs.Prelude.{◌≡◌, ◌<◌, List, Contains, IfOk, IfNone, IfSome, MatchOption, OnErr, length};
ghost use Rattle.std.specs.Arc.{arc_value};
ghost use Rattle.dl_base.specs.Clash.{IsConsistent};
ghost use Rattle.dl_base.specs.Commits as outcome;
ghost use Rattle.dl_base.specs.Histories.{IsVersion, in_force};
ghost use Rattle.dl_base.specs.IllFormed.{NamesPair};
ghost use Rattle.dl_base.specs.Ontologies.{Extends, Knows};
ghost use Rattle.dl_base.specs.Validity.{IsOntology};
ghost use Rattle.dl_base.specs.declared.statements.Fact as fact_type;
ghost use Rattle.serial_history.specs.Committing.{Continues};
ghost use Rattle.serial_history.specs.Replacing.{HasReplaced, Refuses, ReplacesBy};
ghost use Rattle.update_engine.specs.Judging.{IsClash};

use crate::histories::History;
use dl_base::{Changes, Entry, Fact, Ontology, OutOfMemory, Requests, Steps, Versions};
use std::alloc::Global;
use std::marker::Brand;
use std::sync::Arc;
use std::sync::ledger::{Blank, Ledger};
use update_engine::{Clash, Rules, first_clash_in};

/// What a replacement of the ontology comes to: the number of its entry, from 1; the history has as many entries as it may have; the stored fact
/// or the two stored facts that contradict the new axioms; or memory was refused.
#[derive(Debug, Drop)]
pub enum Replacing {
    Replaced(u64),
    Full,
    Alone(Fact),
    Pair(Fact, Fact),
    OutOfMemory,
}

impl<V: Versions + Drop> History<V> {
    /// Puts the ontology in force, by an entry of this editor that does nothing else: the stored facts stay. Refused in this order: at the limit
    /// (`Full`); where a stored fact contradicts the new axioms by itself, with the least one (`Alone`); where two do together, with those at the
    /// least places (`Pair`). All memory is taken before the history changes.
    pub fn replace(&mut self, editor: u32, ontology: Arc<Ontology>, rules: Arc<Rules>) -> Replacing
        requires ontology { IsOntology (arc_value ontology) }
        requires extends { Extends (arc_value ontology) (in_force self.old.opening self.old.entries) }
        requires compiled { arc_value rules ≡ arc_value ontology }
        ensures { ReplacesBy self.old editor (arc_value ontology) result self.new }
    {
        if self.log.len() as u64 >= self.limit {
            return Replacing::Full;
        }
        if let Some(refusal) = contradiction(self.alloc, &rules, &self.version) {
            return refusal;
        }
        match self.put_in_force(editor, ontology, rules) {
            Ok(number) => Replacing::Replaced(number),
            Err(_) => Replacing::OutOfMemory,
        }
    }

    /// One entry more, which puts the ontology in force. Its number comes back, from 1.
    fn put_in_force(
        &mut self,
        editor: u32,
        ontology: Arc<Ontology>,
        rules: Arc<Rules>,
    ) -> Result<u64, OutOfMemory>
        requires room { length self.old.entries < self.old.limit }
        requires ontology { IsOntology (arc_value ontology) }
        requires extends { Extends (arc_value ontology) (in_force self.old.opening self.old.entries) }
        requires compiled { arc_value rules ≡ arc_value ontology }
        requires consistent { (version : List fact_type.Fact) → IsVersion self.old.facts self.old.entries version → IsConsistent (arc_value ontology).axioms version }
        ensures replaced { IfOk result (λ number. HasReplaced self.old editor (arc_value ontology) (outcome.InForce number) self.new) }
        ensures continues { IfOk result (λ number. Continues self.old self.new) }
        ensures refused { OnErr result (self.new ≡ self.old) }
    {
        let next = self.version.with_change(self.alloc, &[])?;
        let entry = Entry {
            editor,
            number: self.log.count_of(editor) as u64,
            requests: Requests::of(Vec::new(self.alloc)),
            changed: Changes::of(Vec::new(self.alloc)),
            replaced: Some(ontology),
        };
        match self.log.push(self.alloc, entry, rules) {
            Ok(()) => {
                self.version = next;
                Ok(self.log.len() as u64)
            }
            Err(_) => Err(OutOfMemory),
        }
    }
}

/// The answer that names the facts of the version that contradict the rules. `None` where they are consistent.
fn contradiction<V: Versions>(alloc: Global, rules: &Rules, version: &V) -> Option<Replacing>
    requires { (f : fact_type.Fact) → Contains (V.facts version.now) f → Knows rules.now f }
    ensures { MatchOption result (IsConsistent rules.now.axioms (V.facts version.now)) (Refuses rules.now.axioms (V.facts version.now)) }
{
    let Ok(facts) = version.all(alloc) else {
        return Some(Replacing::OutOfMemory);
    };
    let Ok(found) = clash_in::<V, Brand>(alloc, rules, version, facts.as_slice(), Blank::new(1))
    else {
        return Some(Replacing::OutOfMemory);
    };
    match found {
        None => None,
        Some(clash) => Some(refusal_of(alloc, rules, facts.as_slice(), clash)),
    }
}

/// The first clash of the facts, by look-ups in the version that has them.
fn clash_in<V: Versions, L: Ledger>(
    alloc: Global,
    rules: &Rules,
    version: &V,
    facts: &[Fact],
    blank: Blank,
) -> Result<Option<Clash>, OutOfMemory>
    requires name { blank.name ≡ L.name }
    requires parts { blank.parts ≡ L.parts }
    requires one { blank.parts ≡ 1 }
    requires same { V.facts version.now ≡ facts.now }
    requires known { (f : fact_type.Fact) → Contains facts.now f → Knows rules.now f }
    ensures clash { IfOk result (λ clash. IfSome clash (IsClash rules.now.axioms facts.now)) }
    ensures consistent { IfOk result (λ clash. IfNone clash (IsConsistent rules.now.axioms facts.now)) }
{
    let mut steps: Steps<L> = Steps::new(blank);
    let clash = first_clash_in(alloc, rules, version, facts, &mut steps)?;
    Ok(clash)
}

/// The answer that names the facts of the clash.
fn refusal_of(alloc: Global, rules: &Rules, facts: &[Fact], clash: Clash) -> Replacing
    requires { IsClash rules.now.axioms facts.now clash }
    ensures { Refuses rules.now.axioms facts.now result }
{
    match clash {
        Clash::Alone(place) => match facts[place].copy(alloc) {
            Ok(fact) => Replacing::Alone(fact),
            Err(_) => Replacing::OutOfMemory,
        },
        Clash::Pair(place, other) => pair(alloc, rules, facts, place, other),
    }
}

/// The answer that names the two facts at these places.
fn pair(alloc: Global, rules: &Rules, facts: &[Fact], place: usize, other: usize) -> Replacing
    requires { NamesPair rules.now.axioms facts.now place other }
    ensures { Refuses rules.now.axioms facts.now result }
{
    let Ok(fact) = facts[place].copy(alloc) else {
        return Replacing::OutOfMemory;
    };
    let Ok(beside) = facts[other].copy(alloc) else {
        return Replacing::OutOfMemory;
    };
    Replacing::Pair(fact, beside)
}
