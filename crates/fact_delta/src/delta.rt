ghost use Rattle.std.specs.Prelude.{◌≡◌, ◌+◌, ◌<◌, ◌^◌, ◌↔◌, ◌⊎◌, [], Contains, IsTrue, IfOk, OnOk, OnErr, length};
ghost use Rattle.dl_base.specs.declared.statements.Fact as fact_type;
ghost use Rattle.dl_base.specs.FactOrder.{AreSorted};
ghost use Rattle.dl_base.specs.Patterns.{Matches};
ghost use Rattle.dl_base.specs.Updates.{Lists};
ghost use Rattle.fact_delta.specs.Deltas.{standing, moved_over, Fits, IsApplied, IsOver};

use crate::lists::{absent, exchanged, is_in_order};
use dl_base::{Fact, FactSet, OutOfMemory, Pattern, Steps, copies_of, matching, sorted_once};
use std::alloc::Global;
use std::marker::{Brand, Model};
use std::sync::ledger::{Blank, Ledger};

/// A set of facts that is a base with what came to it and what went from it. The base stays as it is.
pub struct Delta<S: FactSet> {
    base: S,
    came: Vec<Fact>,
    went: Vec<Fact>,
    alloc: Global,
}

/// What came to a base and what went from it, each in order.
#[derive(Drop)]
pub struct Moved {
    pub came: Vec<Fact>,
    pub went: Vec<Fact>,
}

impl<S: FactSet> Model for Delta<S> {
    ghost use Rattle.fact_delta.specs.Deltas.{Over, IsOver};

    ghost Value = { Over };

    ghost view = { λ d. record { base = S.facts d.base; came = d.came.items; went = d.went.items } };

    ghost invariant = { λ d. IsOver (record { base = S.facts d.base; came = d.came.items; went = d.went.items }) };
}

impl<S: FactSet + Drop> Drop for Delta<S> {
    // Written out, so that a caller's proof takes it as one call.
    fn drop(self) {
        let Delta {
            base: _base,
            came: _came,
            went: _went,
            alloc: _alloc,
        } = self;
    }
}

impl<S: FactSet + Drop> Delta<S> {
    /// The base as it is, whose facts are in order. It takes no memory.
    pub fn over(alloc: Global, base: S) -> Delta<S>
        requires sorted { AreSorted (S.facts base) }
        ensures base { result.base ≡ S.facts base }
        ensures nothing { (result.came ≡ []) × (result.went ≡ []) }
    {
        Delta {
            base,
            came: Vec::new(alloc),
            went: Vec::new(alloc),
            alloc,
        }
    }

    pub fn base(&self) -> &S
        ensures { S.facts result.now ≡ self.now.base }
    {
        &self.base
    }

    /// The base alone.
    pub fn into_base(self) -> S
        ensures { S.facts result ≡ self.base }
    {
        let Delta {
            base,
            came: _came,
            went: _went,
            alloc: _alloc,
        } = self;
        base
    }

    /// What came to the base, in order. None of it is in the base.
    pub fn came(&self) -> &[Fact]
        ensures same { result.now ≡ self.now.came }
        ensures sorted { AreSorted self.now.came }
        ensures new { (f : fact_type.Fact) → Contains self.now.came f → ¬ Contains self.now.base f }
    {
        self.came.as_slice()
    }

    /// What went from the base, in order. All of it is in the base.
    pub fn went(&self) -> &[Fact]
        ensures same { result.now ≡ self.now.went }
        ensures sorted { AreSorted self.now.went }
        ensures old { (f : fact_type.Fact) → Contains self.now.went f → Contains self.now.base f }
    {
        self.went.as_slice()
    }

    /// Takes the removed facts out, which are in the set, and the added ones in, which aren't; both are in order. Where memory is refused
    /// nothing has changed.
    pub fn apply(&mut self, removed: &[Fact], added: &[Fact]) -> Result<(), OutOfMemory>
        requires removed { AreSorted removed.now }
        requires added { AreSorted added.now }
        requires fits { Fits (standing self.old) removed.now added.now }
        ensures ok { OnOk result (IsApplied (standing self.old) removed.now added.now (standing self.new)) }
        ensures sorted { OnOk result (AreSorted (standing self.new)) }
        ensures base { self.new.base ≡ self.old.base }
        ensures refused { OnErr result (self.new ≡ self.old) }
    {
        let moved = self.moved(removed, added)?;
        self.take(moved);
        Ok(())
    }

    /// The set after such a change, over another owner of the same base.
    pub fn with(&self, base: S, removed: &[Fact], added: &[Fact]) -> Result<Delta<S>, OutOfMemory>
        requires same { S.facts base ≡ self.now.base }
        requires removed { AreSorted removed.now }
        requires added { AreSorted added.now }
        requires fits { Fits (standing self.now) removed.now added.now }
        ensures ok { IfOk result (λ next. IsApplied (standing self.now) removed.now added.now (standing next)) }
        ensures sorted { IfOk result (λ next. AreSorted (standing next)) }
        ensures base { IfOk result (λ next. next.base ≡ self.now.base) }
    {
        let moved = self.moved(removed, added)?;
        let Moved { came, went } = moved;
        Ok(Delta {
            base,
            came,
            went,
            alloc: self.alloc,
        })
    }

    /// What has come to the base and gone from it after such a change. It goes over the change and over what came and went so far, and not
    /// over the base.
    pub fn moved(&self, removed: &[Fact], added: &[Fact]) -> Result<Moved, OutOfMemory>
        requires removed { AreSorted removed.now }
        requires added { AreSorted added.now }
        requires fits { Fits (standing self.now) removed.now added.now }
        ensures over { IfOk result (λ moved. IsOver (moved_over self.now moved)) }
        ensures ok { IfOk result (λ moved. IsApplied (standing self.now) removed.now added.now (standing (moved_over self.now moved))) }
        ensures sorted { IfOk result (λ moved. AreSorted (standing (moved_over self.now moved))) }
    {
        let came = exchanged(self.alloc, self.came(), removed, added, self.went())?;
        let went = exchanged(self.alloc, self.went(), added, removed, self.came())?;
        Ok(Moved { came, went })
    }

    /// Takes over what has come and gone. It takes no memory.
    pub fn take(&mut self, moved: Moved)
        requires { IsOver (moved_over self.old moved) }
        ensures { self.new ≡ moved_over self.old moved }
    {
        let Moved { came, went } = moved;
        self.came = came;
        self.went = went;
    }

    /// How many facts it has, over a base of so many.
    pub fn count(&self, of_base: usize) -> usize
        requires base { of_base ≡ length self.now.base }
        requires room { of_base + length self.now.came < 2 ^ 64 }
        ensures { result ≡ length (standing self.now) }
    {
        of_base - self.went.len() + self.came.len()
    }

    /// All its facts in order, made of those of the base.
    pub fn all(&self, of_base: &[Fact]) -> Result<Vec<Fact>, OutOfMemory>
        requires { of_base.now ≡ self.now.base }
        ensures { IfOk result (λ all. all.items ≡ standing self.now) }
    {
        let mut all = absent(self.alloc, of_base, self.went.as_slice())?;
        all.append(&mut copies_of(self.alloc, self.came.as_slice())?)?;
        let all = sorted_once(all)?;
        Ok(all)
    }
}

impl<S: FactSet + Drop> FactSet for Delta<S> {
    ghost facts = { λ d. standing d };

    fn find<L: Ledger>(
        &self,
        alloc: Global,
        pattern: &Pattern,
        steps: &mut Steps<L>,
    ) -> Result<Vec<Fact>, OutOfMemory> {
        steps.tick();
        let held = found_in::<S, Brand>(alloc, &self.base, pattern, Blank::new(1))?;
        let mut found = absent(alloc, held.as_slice(), self.went.as_slice())?;
        found.append(&mut matching(alloc, self.came.as_slice(), pattern)?)?;
        let found = sorted_once(found)?;
        steps.count(found.len());
        Ok(found)
    }

    fn has<L: Ledger>(&self, fact: &Fact, steps: &mut Steps<L>) -> bool {
        steps.tick();
        if is_in_order(self.came.as_slice(), fact) {
            return true;
        }
        if is_in_order(self.went.as_slice(), fact) {
            return false;
        }
        is_in::<S, Brand>(&self.base, fact, Blank::new(1))
    }
}

/// What a set finds, with a count of its own.
fn found_in<S: FactSet, L: Ledger>(
    alloc: Global,
    set: &S,
    pattern: &Pattern,
    blank: Blank,
) -> Result<Vec<Fact>, OutOfMemory>
    requires name { blank.name ≡ L.name }
    requires parts { blank.parts ≡ L.parts }
    requires one { blank.parts ≡ 1 }
    ensures { IfOk result (λ found. Lists (λ f. Contains (S.facts set.now) f × Matches pattern.now f) found.items) }
{
    let mut steps: Steps<L> = Steps::new(blank);
    let found = set.find(alloc, pattern, &mut steps)?;
    Ok(found)
}

/// Whether a set has the fact, with a count of its own.
fn is_in<S: FactSet, L: Ledger>(set: &S, fact: &Fact, blank: Blank) -> bool
    requires name { blank.name ≡ L.name }
    requires parts { blank.parts ≡ L.parts }
    requires one { blank.parts ≡ 1 }
    ensures { IsTrue result ↔ Contains (S.facts set.now) fact.now }
{
    let mut steps: Steps<L> = Steps::new(blank);
    set.has(fact, &mut steps)
}
