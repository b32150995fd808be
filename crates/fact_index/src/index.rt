ghost use Rattle.std.specs.Prelude.{◌≡◌, ◌↔◌, ◌⊎◌, [], Contains, IsTrue, IfOk, IfErr, OnOk, OnErr, length, map};
ghost use Rattle.dl_base.specs.declared.statements.Fact as fact_type;
ghost use Rattle.dl_base.specs.FactOrder.{AreSorted};
ghost use Rattle.dl_base.specs.Patterns.{Matches};
ghost use Rattle.dl_base.specs.Updates.{Lists};
ghost use Rattle.fact_index.specs.Numbers.{fact_at};
ghost use Rattle.fact_index.specs.Looking.{AreWithin, IsFoundAmong, IsPushedIf, facts_of};
ghost use Rattle.fact_index.specs.declared.index.Refused.TheVariants as refused;

use crate::links::Links;
use crate::numbers::Numbers;
use crate::places::Link;
use dl_base::{Fact, FactSet, OutOfMemory, Pattern, Steps, sorted_once};
use std::alloc::Global;
use std::marker::Model;
use std::sync::ledger::Ledger;

/// Why a fact wasn't taken: memory was refused, and the fact comes back.
#[derive(Debug, Drop)]
pub enum Refused {
    OutOfMemory(Fact),
}

/// A set of facts that is looked up by predicate with subject, with object and with both. Names and values stand in it once, by number.
#[derive(Drop)]
pub struct Index {
    numbers: Numbers,
    links: Links,
    alloc: Global,
}

impl Model for Index {
    ghost use Rattle.std.specs.Prelude.{List};
    ghost use Rattle.dl_base.specs.declared.statements.Fact.{Fact};

    ghost Value = { List Fact };

    ghost use Rattle.fact_index.specs.Looking.{facts_of, AreWithin};

    ghost view = { λ s. facts_of s.numbers s.links };

    ghost invariant = { λ s. AreWithin s.numbers s.links };
}

impl Index {
    /// No facts. It takes no memory.
    pub fn new(alloc: Global) -> Index
        ensures { result ≡ [] }
    {
        Index {
            numbers: Numbers::new(alloc),
            links: Links::new(alloc),
            alloc,
        }
    }

    /// An index of the facts.
    pub fn of(alloc: Global, facts: &[Fact]) -> Result<Index, OutOfMemory>
        ensures same { IfOk result (λ index. (f : fact_type.Fact) → Contains index f ↔ Contains facts.now f) }
        ensures sorted { IfOk result (λ index. AreSorted index) }
    {
        let mut numbers = Numbers::new(alloc);
        let links = links_in(alloc, &mut numbers, facts)?;
        let index = Index {
            numbers,
            links: Links::of(alloc, links)?,
            alloc,
        };
        let _count = index.len();
        Ok(index)
    }

    /// Takes the fact in; true exactly where it wasn't held. Where memory is refused the fact comes back.
    pub fn insert(&mut self, fact: Fact) -> Result<bool, Refused>
        ensures added { IfOk result (λ added. IsTrue added ↔ ¬ Contains self.old fact) }
        ensures held { OnOk result ((f : fact_type.Fact) → Contains self.new f ↔ ((f ≡ fact) ⊎ Contains self.old f)) }
        ensures handed_back { IfErr result (λ e. e ≡ refused.OutOfMemory fact) }
        ensures refused { OnErr result (self.new ≡ self.old) }
        ensures sorted { AreSorted self.new }
    {
        match self.take_in(&fact) {
            Ok(added) => Ok(added),
            Err(_) => Err(Refused::OutOfMemory(fact)),
        }
    }

    fn take_in(&mut self, fact: &Fact) -> Result<bool, OutOfMemory>
        ensures added { IfOk result (λ added. IsTrue added ↔ ¬ Contains self.old fact.now) }
        ensures held { OnOk result ((f : fact_type.Fact) → Contains self.new f ↔ ((f ≡ fact.now) ⊎ Contains self.old f)) }
        ensures refused { OnErr result (self.new ≡ self.old) }
        ensures sorted { AreSorted self.new }
    {
        let link = self.numbers.link_in(self.alloc, fact)?;
        let added = self.links.insert(link)?;
        Ok(added)
    }

    /// Takes the fact out; true exactly where it was held. It takes no memory.
    pub fn remove(&mut self, fact: &Fact) -> bool
        ensures removed { IsTrue result ↔ Contains self.old fact.now }
        ensures held { (f : fact_type.Fact) → Contains self.new f ↔ (Contains self.old f × ¬ (f ≡ fact.now)) }
        ensures sorted { AreSorted self.new }
    {
        match self.numbers.link_of(fact) {
            Some(link) => self.links.remove(&link),
            None => false,
        }
    }

    /// How many facts it has.
    pub(crate) fn len(&self) -> usize
        ensures len { result ≡ length self.now }
        ensures sorted { AreSorted self.now }
    {
        let _names = self.numbers.names();
        self.links.len()
    }

    /// All facts in order.
    pub(crate) fn all(&self, alloc: Global) -> Result<Vec<Fact>, OutOfMemory>
        ensures { IfOk result (λ all. all.items ≡ self.now) }
    {
        let links = self.links.all(alloc)?;
        let found = facts_at(alloc, &self.numbers, links.as_slice())?;
        let ordered = sorted_once(found)?;
        Ok(ordered)
    }

    /// Whether it has the fact. It takes no memory.
    fn contains(&self, fact: &Fact) -> bool
        ensures member { IsTrue result ↔ Contains self.now fact.now }
        ensures sorted { AreSorted self.now }
    {
        match self.numbers.link_of(fact) {
            Some(link) => self.links.has(&link),
            None => false,
        }
    }

    /// The facts that match, each once and in order.
    fn matching(&self, alloc: Global, pattern: &Pattern) -> Result<Vec<Fact>, OutOfMemory>
        ensures found { IfOk result (λ found. Lists (λ f. Contains self.now f × Matches pattern.now f) found.items) }
        ensures sorted { AreSorted self.now }
    {
        let Some(place) = self.numbers.place_of(pattern) else {
            return Ok(Vec::new(alloc));
        };
        let links = self.links.at(alloc, &place)?;
        let found = found_among(alloc, &self.numbers, links.as_slice(), pattern)?;
        let ordered = sorted_once(found)?;
        Ok(ordered)
    }
}

/// The links that stand for the facts from now on, in the order of these.
fn links_in(alloc: Global, numbers: &mut Numbers, facts: &[Fact]) -> Result<Vec<Link>, OutOfMemory>
    ensures within { IfOk result (λ links. AreWithin numbers.new links.items) }
    ensures same { IfOk result (λ links. (f : fact_type.Fact) → Contains (facts_of numbers.new links.items) f ↔ Contains facts.now f) }
{
    let mut links = Vec::with_capacity(alloc, facts.len())?;
    for fact in facts {
        links.push(numbers.link_in(alloc, fact)?)?;
    }
    Ok(links)
}

/// The facts of the links, in the order of these.
fn facts_at(alloc: Global, numbers: &Numbers, links: &[Link]) -> Result<Vec<Fact>, OutOfMemory>
    requires { AreWithin numbers.now links.now }
    ensures { IfOk result (λ facts. facts.items ≡ map (fact_at numbers.now) links.now) }
{
    let mut facts = Vec::new(alloc);
    for link in links {
        facts.push(numbers.fact_of(alloc, link)?)?;
    }
    Ok(facts)
}

/// The facts of the links that match.
fn found_among(
    alloc: Global,
    numbers: &Numbers,
    links: &[Link],
    pattern: &Pattern,
) -> Result<Vec<Fact>, OutOfMemory>
    requires { AreWithin numbers.now links.now }
    ensures { IfOk result (λ found. (f : fact_type.Fact) → Contains found.items f ↔ IsFoundAmong numbers.now links.now pattern.now f) }
{
    let mut found = Vec::new(alloc);
    for link in links {
        let fact = numbers.fact_of(alloc, link)?;
        push_if(&mut found, pattern, fact)?;
    }
    Ok(found)
}

/// Pushes the fact if it matches.
fn push_if(found: &mut Vec<Fact>, pattern: &Pattern, fact: Fact) -> Result<(), OutOfMemory>
    ensures { OnOk result (IsPushedIf pattern.now found.old.items fact found.new.items) }
{
    if pattern.matches(&fact) {
        found.push(fact)?;
    }
    Ok(())
}

impl FactSet for Index {
    ghost facts = { λ s. s };

    fn find<L: Ledger>(
        &self,
        alloc: Global,
        pattern: &Pattern,
        steps: &mut Steps<L>,
    ) -> Result<Vec<Fact>, OutOfMemory> {
        steps.tick();
        let found = self.matching(alloc, pattern)?;
        steps.count(found.len());
        Ok(found)
    }

    fn has<L: Ledger>(&self, fact: &Fact, steps: &mut Steps<L>) -> bool {
        steps.tick();
        self.contains(fact)
    }
}
