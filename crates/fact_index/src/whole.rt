ghost use Rattle.std.specs.Prelude.{◌≡◌, ◌+◌, ◌<◌, ◌^◌, ◌∷◌, [], IsTrue, IfOk, length, refl};
ghost use Rattle.dl_base.specs.Changing.{Fits, IsChanged};
ghost use Rattle.dl_base.specs.FactOrder.{AreSorted};
ghost use Rattle.fact_delta.specs.Deltas.{standing};

use crate::shared::Shared;
use dl_base::{Changed, Fact, FactSet, OutOfMemory, Pattern, Steps, Versions};
use fact_delta::{Delta, marked};
use std::alloc::Global;
use std::marker::Model;
use std::sync::Arc;
use std::sync::ledger::Ledger;

/// The most facts that come and the most that go before a new index is made.
const MOST_MOVED: usize = 512;

/// An indexed set of facts that several owners share: an index with what came to it and what went from it since. A change goes over these
/// and not over the index, until they are so many that a new index is made.
#[derive(Drop)]
pub struct Whole {
    delta: Arc<Delta<Shared>>,
}

impl Model for Whole {
    ghost use Rattle.std.specs.Prelude.{List};
    ghost use Rattle.dl_base.specs.declared.statements.Fact.{Fact};

    ghost Value = { List Fact };

    ghost use Rattle.std.specs.Arc.{arc_value};
    ghost use Rattle.fact_delta.specs.Deltas.{standing};
    ghost use Rattle.fact_index.specs.Keeping.{IsKept};

    ghost view = { λ w. standing (arc_value w.delta) };

    ghost invariant = { λ w. IsKept (arc_value w.delta) };
}

impl FactSet for Whole {
    ghost facts = { λ s. s };

    fn find<L: Ledger>(
        &self,
        alloc: Global,
        pattern: &Pattern,
        steps: &mut Steps<L>,
    ) -> Result<Vec<Fact>, OutOfMemory> {
        let found = self.delta.find(alloc, pattern, steps)?;
        Ok(found)
    }

    fn has<L: Ledger>(&self, fact: &Fact, steps: &mut Steps<L>) -> bool {
        self.delta.has(fact, steps)
    }
}

impl Versions for Whole {
    ghost layers = { λ s. s ∷ [] };

    fn of(alloc: Global, facts: Vec<Fact>) -> Result<Whole, OutOfMemory> {
        let base = Shared::of(alloc, facts.as_slice())?;
        let _count = base.len();
        Ok(Whole {
            delta: Arc::new(alloc, Delta::over(alloc, base))?,
        })
    }

    fn with_change(&self, alloc: Global, changed: &[Changed]) -> Result<Whole, OutOfMemory> {
        let next = changed_delta(alloc, &self.delta, changed)?;
        if is_small(&next) {
            return Ok(Whole {
                delta: Arc::new(alloc, next)?,
            });
        }
        let whole = Whole::of(alloc, all_of(alloc, &next)?)?;
        Ok(whole)
    }

    fn share(&self) -> Result<Whole, OutOfMemory> {
        Ok(Whole {
            delta: Arc::try_clone(&self.delta)?,
        })
    }

    fn count(&self) -> usize {
        let of_base = self.delta.base().len();
        self.delta.count(of_base)
    }

    fn all(&self, alloc: Global) -> Result<Vec<Fact>, OutOfMemory> {
        let all = all_of(alloc, &self.delta)?;
        Ok(all)
    }

    ghost last = { λ s. ([], refl) };
}

/// The set after the change, over the same index.
fn changed_delta(
    alloc: Global,
    delta: &Delta<Shared>,
    changed: &[Changed],
) -> Result<Delta<Shared>, OutOfMemory>
    requires { Fits (standing delta.now) changed.now }
    ensures changed { IfOk result (λ next. IsChanged (standing delta.now) changed.now (standing next)) }
    ensures sorted { IfOk result (λ next. AreSorted (standing next)) }
{
    let removed = marked(alloc, changed, false)?;
    let added = marked(alloc, changed, true)?;
    let base = delta.base().share()?;
    let next = delta.with(base, removed.as_slice(), added.as_slice())?;
    Ok(next)
}

/// Whether little came and went, so that the index serves on.
fn is_small(delta: &Delta<Shared>) -> bool
    ensures { IsTrue result → length delta.now.base + length delta.now.came < 2 ^ 64 }
{
    if delta.base().len() > usize::MAX - MOST_MOVED {
        return false;
    }
    if delta.came().len() > MOST_MOVED {
        return false;
    }
    delta.went().len() <= MOST_MOVED
}

/// All facts of the set, in order.
fn all_of(alloc: Global, delta: &Delta<Shared>) -> Result<Vec<Fact>, OutOfMemory>
    ensures { IfOk result (λ all. all.items ≡ standing delta.now) }
{
    let of_base = delta.base().all(alloc)?;
    let all = delta.all(of_base.as_slice())?;
    Ok(all)
}
