ghost use Rattle.std.specs.Prelude.{◌≡◌, [], OnOk, IfOk};
ghost use Rattle.ntriples.specs.Gathering.{IsJoined};

use dl_base::{Fact, Facts, OutOfMemory};
use indexmap::IndexSet;
use std::alloc::Global;
use std::marker::Model;

/// Facts in the order in which they came, each once. Contracts see their list.
#[derive(Drop)]
pub struct Gathered {
    facts: IndexSet<Fact>,
}

impl Model for Gathered {
    ghost use Rattle.std.specs.Prelude.{List};
    ghost use Rattle.dl_base.specs.declared.statements.Fact.{Fact};

    ghost Value = { List Fact };

    ghost view = { λ g. g.facts.keys };
}

impl Gathered {
    pub fn new(alloc: Global) -> Gathered
        ensures { result ≡ [] }
    {
        Gathered {
            facts: IndexSet::new(alloc),
        }
    }

    /// One fact more, if it isn't among them.
    pub fn join(&mut self, fact: Fact) -> Result<(), OutOfMemory>
        ensures { OnOk result (IsJoined self.old fact self.new) }
    {
        self.facts.insert(fact)?;
        Ok(())
    }

    pub fn into_facts(self, alloc: Global) -> Result<Facts, OutOfMemory>
        ensures { IfOk result (λ facts. facts ≡ self) }
    {
        let Gathered { facts } = self;
        let list: Vec<Fact> = facts.into_iter().collect(alloc)?;
        Ok(Facts::of(list))
    }
}
