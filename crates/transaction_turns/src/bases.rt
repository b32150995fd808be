ghost use Rattle.std.specs.Prelude.{◌≡◌, Contains, IfOk};
ghost use Rattle.std.specs.Arc.{arc_value};
ghost use Rattle.dl_base.specs.Clash.{IsConsistent};
ghost use Rattle.dl_base.specs.Ontologies.{Knows};
ghost use Rattle.dl_base.specs.declared.statements.Fact as fact_type;

use dl_base::{OutOfMemory, Versions};
use loading::Opened;
use std::alloc::Global;
use std::marker::Model;
use std::sync::Arc;
use transaction::Transaction;
use update_engine::Rules;

/// Rules, and a version that is consistent under them, over which transactions begin.
pub struct Base<V: Versions> {
    rules: Arc<Rules>,
    version: V,
}

impl<V: Versions> Model for Base<V> {
    ghost use Rattle.std.specs.Prelude.{Contains};
    ghost use Rattle.std.specs.Arc.{arc_value};
    ghost use Rattle.dl_base.specs.Clash.{IsConsistent};
    ghost use Rattle.dl_base.specs.Ontologies.{Theory, Knows};
    ghost use Rattle.dl_base.specs.declared.statements.Fact.{Fact};

    ghost Value = { Theory };

    ghost view = { λ b. arc_value b.rules };

    ghost invariant = { λ b. IsConsistent (arc_value b.rules).axioms (V.facts b.version) × ((f : Fact) → Contains (V.facts b.version) f → Knows (arc_value b.rules) f) };
}

impl<V: Versions + Drop> Drop for Base<V> {
    // Written out, so that a caller's proof takes it as one call.
    fn drop(self) {
        let Base {
            rules: _rules,
            version: _version,
        } = self;
    }
}

impl<V: Versions + Drop> Base<V> {
    /// The opened facts.
    pub fn of(alloc: Global, opened: Opened) -> Result<Base<V>, OutOfMemory>
        requires consistent { IsConsistent (arc_value opened.rules).axioms opened.facts.items }
        requires known { (f : fact_type.Fact) → Contains opened.facts.items f → Knows (arc_value opened.rules) f }
        ensures { IfOk result (λ base. base ≡ arc_value opened.rules) }
    {
        let Opened {
            ontology: _ontology,
            rules,
            facts,
            skipped: _,
        } = opened;
        let version: V = Versions::of(alloc, facts)?;
        Ok(Base { rules, version })
    }

    /// A transaction that begins here.
    pub fn begun(&self, alloc: Global) -> Result<Transaction<V>, OutOfMemory>
        ensures { IfOk result (λ begun. begun.ontology ≡ self.now) }
    {
        let rules = Arc::try_clone(&self.rules)?;
        let version = self.version.share()?;
        Ok(Transaction::at(alloc, rules, version, 0))
    }
}
