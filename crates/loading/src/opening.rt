ghost use Rattle.std.specs.Prelude.{◌≡◌, ◌++◌, List, Contains, IfNone, IfOk, IfSome, MatchOption, OnOk};
ghost use Rattle.dl_base.specs.Clash.{IsConsistent};
ghost use Rattle.dl_base.specs.FactOrder.{AreSorted};
ghost use Rattle.dl_base.specs.IllFormed.{NamesPair};
ghost use Rattle.dl_base.specs.Ontologies.{Knows};
ghost use Rattle.dl_base.specs.Repeats.{IsOnce};
ghost use Rattle.dl_base.specs.declared.statements.Fact as fact_type;
ghost use Rattle.loading.specs.Loading.{Contradicts, IsPushedUnless, Opens, Loads};
ghost use Rattle.update_engine.specs.Judging.{IsClash};

use crate::refusals::LoadRefusal;
use dl_base::{Fact, Facts, Ontology, OutOfMemory, Steps, copies_of, once, sorted_once};
use dl_text::ReadRefusal;
use fact_delta::is_in_order;
use fact_index::Index;
use ntriples::read_facts;
use std::alloc::Global;
use std::marker::Brand;
use std::sync::Arc;
use std::sync::ledger::{Blank, Ledger};
use update_engine::{Clash, Rules, first_clash_in};

/// An ontology with its rules, facts that are consistent under it, and how many triples were skipped.
#[derive(Drop)]
pub struct Opened {
    pub ontology: Ontology,
    pub rules: Arc<Rules>,
    pub facts: Vec<Fact>,
    pub skipped: u64,
}

/// Opens these facts. Refused are facts that contradict the axioms: `Alone` with the first that does so by itself, else `Pair` with the
/// first two that do.
pub fn open(
    alloc: Global,
    ontology: Ontology,
    facts: Vec<Fact>,
    skipped: u64,
) -> Result<Opened, LoadRefusal>
    requires known { (f : fact_type.Fact) → Contains facts.items f → Knows ontology f }
    ensures opens { Opens ontology facts.items skipped result }
    ensures known { IfOk result (λ it. (f : fact_type.Fact) → Contains it.facts.items f → Knows ontology f) }
{
    let rules = Rules::compile(alloc, &ontology)?;
    if let Some(refusal) = contradiction(alloc, &rules, facts.as_slice()) {
        return Err(refusal);
    }
    Ok(Opened {
        ontology,
        rules: Arc::new(alloc, rules)?,
        facts,
        skipped,
    })
}

/// The refusal that names the facts that contradict the axioms. `None` where they are consistent.
fn contradiction(alloc: Global, rules: &Rules, facts: &[Fact]) -> Option<LoadRefusal>
    requires { (f : fact_type.Fact) → Contains facts.now f → Knows rules.now f }
    ensures { MatchOption result (IsConsistent rules.now.axioms facts.now) (Contradicts rules.now.axioms facts.now) }
{
    let Ok(found) = clash_by_index::<Brand>(alloc, rules, facts, Blank::new(1)) else {
        return Some(LoadRefusal::OutOfMemory);
    };
    match found {
        None => None,
        Some(clash) => Some(refusal_of(alloc, rules, facts, clash)),
    }
}

/// The first clash of the facts, by look-ups in an index of them.
fn clash_by_index<L: Ledger>(
    alloc: Global,
    rules: &Rules,
    facts: &[Fact],
    blank: Blank,
) -> Result<Option<Clash>, OutOfMemory>
    requires name { blank.name ≡ L.name }
    requires parts { blank.parts ≡ L.parts }
    requires one { blank.parts ≡ 1 }
    requires known { (f : fact_type.Fact) → Contains facts.now f → Knows rules.now f }
    ensures clash { IfOk result (λ clash. IfSome clash (IsClash rules.now.axioms facts.now)) }
    ensures consistent { IfOk result (λ clash. IfNone clash (IsConsistent rules.now.axioms facts.now)) }
{
    let mut steps: Steps<L> = Steps::new(blank);
    let index = Index::of(alloc, facts)?;
    let clash = first_clash_in(alloc, rules, &index, facts, &mut steps)?;
    Ok(clash)
}

/// The refusal that names the facts of the clash.
fn refusal_of(alloc: Global, rules: &Rules, facts: &[Fact], clash: Clash) -> LoadRefusal
    requires { IsClash rules.now.axioms facts.now clash }
    ensures { Contradicts rules.now.axioms facts.now result }
{
    match clash {
        Clash::Alone(place) => match facts[place].copy(alloc) {
            Ok(fact) => LoadRefusal::Alone(fact),
            Err(_) => LoadRefusal::OutOfMemory,
        },
        Clash::Pair(place, other) => pair(alloc, rules, facts, place, other),
    }
}

/// The refusal that names the two facts at these places.
fn pair(alloc: Global, rules: &Rules, facts: &[Fact], place: usize, other: usize) -> LoadRefusal
    requires { NamesPair rules.now.axioms facts.now place other }
    ensures { Contradicts rules.now.axioms facts.now result }
{
    let Ok(fact) = facts[place].copy(alloc) else {
        return LoadRefusal::OutOfMemory;
    };
    let Ok(beside) = facts[other].copy(alloc) else {
        return LoadRefusal::OutOfMemory;
    };
    LoadRefusal::Pair(fact, beside)
}

/// The given facts and behind them those of the file, without those that are given. None of either stands twice, so only the given ones
/// are put in order, and no fact of the file is copied.
fn joined(alloc: Global, mut given: Vec<Fact>, found: Facts) -> Result<Vec<Fact>, OutOfMemory>
    requires { IsOnce found found }
    ensures { IfOk result (λ all. (facts : List fact_type.Fact) → IsOnce facts given.items → IsOnce (facts ++ found) all.items) }
{
    let known = sorted_once(copies_of(alloc, given.as_slice())?)?;
    for fact in found.into_vec() {
        push_unless(&mut given, known.as_slice(), fact)?;
    }
    Ok(given)
}

/// Pushes the fact if it isn't among those known.
fn push_unless(facts: &mut Vec<Fact>, known: &[Fact], fact: Fact) -> Result<(), OutOfMemory>
    requires { AreSorted known.now }
    ensures { OnOk result (IsPushedUnless known.now facts.old.items fact facts.new.items) }
{
    if !is_in_order(known, &fact) {
        facts.push(fact)?;
    }
    Ok(())
}

/// Opens the given facts together with those of a file of N-Triples, repeats dropped. Refused in this order: the file, as its reader says
/// (`Facts`); facts that contradict the axioms (`Alone`, `Pair`). More skipped triples than a number of 64 bits counts are want of memory.
pub fn load_over(
    alloc: Global,
    ontology: Ontology,
    given: &[Fact],
    before: u64,
    bytes: &[u8],
) -> Result<Opened, LoadRefusal>
    requires known { (f : fact_type.Fact) → Contains given.now f → Knows ontology f }
    ensures loads { Loads ontology given.now before bytes.now result }
    ensures known { IfOk result (λ it. (f : fact_type.Fact) → Contains it.facts.items f → Knows ontology f) }
{
    let found = match read_facts(alloc, bytes, &ontology) {
        Ok(found) => found,
        Err(ReadRefusal::OutOfMemory) => return Err(LoadRefusal::OutOfMemory),
        Err(refusal) => return Err(LoadRefusal::Facts(refusal)),
    };
    let kept = once(alloc, given)?;
    let all = joined(alloc, kept, found.facts)?;
    let Some(skipped) = before.checked_add(found.skipped) else {
        return Err(LoadRefusal::OutOfMemory);
    };
    open(alloc, ontology, all, skipped)
}
