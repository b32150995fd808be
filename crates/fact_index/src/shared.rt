ghost use Rattle.std.specs.Prelude.{◌≡◌, ◌↔◌, Contains, IfOk, length};
ghost use Rattle.dl_base.specs.FactOrder.{AreSorted};
ghost use Rattle.dl_base.specs.declared.statements.Fact as fact_type;

use crate::index::Index;
use dl_base::{Fact, FactSet, OutOfMemory, Pattern, Steps};
use std::alloc::Global;
use std::marker::Model;
use std::sync::Arc;
use std::sync::ledger::Ledger;

/// An index that several owners share, and that none of them changes.
#[derive(Drop)]
pub struct Shared {
    index: Arc<Index>,
}

impl Model for Shared {
    ghost use Rattle.std.specs.Prelude.{List};
    ghost use Rattle.dl_base.specs.declared.statements.Fact.{Fact};

    ghost Value = { List Fact };

    ghost use Rattle.std.specs.Arc.{arc_value};

    ghost view = { λ s. arc_value s.index };
}

impl Shared {
    /// An index of the facts.
    pub fn of(alloc: Global, facts: &[Fact]) -> Result<Shared, OutOfMemory>
        ensures same { IfOk result (λ shared. (f : fact_type.Fact) → Contains shared f ↔ Contains facts.now f) }
        ensures sorted { IfOk result (λ shared. AreSorted shared) }
    {
        let index = Index::of(alloc, facts)?;
        Ok(Shared {
            index: Arc::new(alloc, index)?,
        })
    }

    /// One more owner of the same index.
    pub fn share(&self) -> Result<Shared, OutOfMemory>
        ensures { IfOk result (λ shared. shared ≡ self.now) }
    {
        Ok(Shared {
            index: Arc::try_clone(&self.index)?,
        })
    }

    /// How many facts it has.
    pub fn len(&self) -> usize
        ensures { result ≡ length self.now }
    {
        self.index.len()
    }

    /// All facts in order.
    pub fn all(&self, alloc: Global) -> Result<Vec<Fact>, OutOfMemory>
        ensures { IfOk result (λ all. all.items ≡ self.now) }
    {
        let all = self.index.all(alloc)?;
        Ok(all)
    }
}

impl FactSet for Shared {
    ghost facts = { λ s. s };

    fn find<L: Ledger>(
        &self,
        alloc: Global,
        pattern: &Pattern,
        steps: &mut Steps<L>,
    ) -> Result<Vec<Fact>, OutOfMemory> {
        let found = self.index.find(alloc, pattern, steps)?;
        Ok(found)
    }

    fn has<L: Ledger>(&self, fact: &Fact, steps: &mut Steps<L>) -> bool {
        self.index.has(fact, steps)
    }
}
