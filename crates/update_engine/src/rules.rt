ghost use Rattle.std.specs.Prelude.{◌≡◌, ◌≤◌, ◌*◌, ◌↔◌, ◌∷◌, [], IsTrue, IfOk, Contains, length};
ghost use Rattle.dl_base.specs.Clash.{HasClash};
ghost use Rattle.dl_base.specs.Derivation.{InClosure};
ghost use Rattle.dl_base.specs.Ontologies.{Knows};
ghost use Rattle.dl_base.specs.Updates.{Lists};
ghost use Rattle.dl_base.specs.declared.statements.Fact as fact_type;

use conflict_rules::Conflicts;
use dl_base::{Fact, Ontology, OutOfMemory};
use entail_guards::Entailers;
use std::alloc::Global;
use std::marker::Model;
use tbox_closure::close;

/// An ontology with what is compiled from it: which facts clash, and which facts a fact entails.
pub struct Rules {
    ontology: Ontology,
    conflicts: Conflicts,
    entailers: Entailers,
}

impl Model for Rules {
    ghost use Rattle.std.specs.Prelude.{◌≡◌};
    ghost use Rattle.dl_base.specs.Ontologies.{Theory};

    ghost Value = { Theory };

    ghost view = { λ r. r.ontology };

    ghost invariant = { λ r. (r.conflicts ≡ r.ontology) × (r.entailers ≡ r.ontology) };
}

impl Drop for Rules {
    // Written out, so that a caller's proof takes it as one call.
    fn drop(self) {
        let Rules {
            ontology: _ontology,
            conflicts: _conflicts,
            entailers: _entailers,
        } = self;
    }
}

impl Rules {
    /// Compiles the ontology, of which the rules keep a copy.
    pub fn compile(alloc: Global, ontology: &Ontology) -> Result<Rules, OutOfMemory>
        ensures { IfOk result (λ rules. rules ≡ ontology.now) }
    {
        let kept = ontology.copy(alloc)?;
        let implied = close(alloc, ontology)?;
        let conflicts = Conflicts::compile(alloc, &implied, ontology)?;
        let entailers = Entailers::compile(&implied)?;
        Ok(Rules {
            ontology: kept,
            conflicts,
            entailers,
        })
    }

    pub fn ontology(&self) -> &Ontology
        ensures { result.now ≡ self.now }
    {
        &self.ontology
    }

    pub fn conflicts(&self) -> &Conflicts
        ensures { result.now ≡ self.now }
    {
        &self.conflicts
    }

    pub fn entailers(&self) -> &Entailers
        ensures { result.now ≡ self.now }
    {
        &self.entailers
    }

    /// Whether the ontology knows all the facts: what a step asks of the facts of its set.
    pub fn knows_all(&self, facts: &[Fact]) -> bool
        ensures { IsTrue result ↔ ((f : fact_type.Fact) → Contains facts.now f → Knows self.now f) }
    {
        for fact in facts {
            if !self.ontology().knows(fact) {
                return false;
            }
        }
        true
    }

    pub(crate) fn alone(&self, given: &Fact) -> bool
        ensures { IsTrue result ↔ HasClash self.now.axioms (given.now ∷ []) }
    {
        self.conflicts().alone(given)
    }

    pub(crate) fn pair(&self, first: &Fact, second: &Fact) -> bool
        requires first { ¬ HasClash self.now.axioms (first.now ∷ []) }
        requires second { ¬ HasClash self.now.axioms (second.now ∷ []) }
        ensures { IsTrue result ↔ HasClash self.now.axioms (first.now ∷ second.now ∷ []) }
    {
        self.conflicts().pair(first, second)
    }

    pub(crate) fn entails(&self, first: &Fact, second: &Fact) -> bool
        ensures { IsTrue result ↔ InClosure self.now.axioms (first.now ∷ []) second.now }
    {
        self.entailers().entails(first, second)
    }

    pub(crate) fn follows(&self, alloc: Global, given: &Fact) -> Result<Vec<Fact>, OutOfMemory>
        requires { Knows self.now given.now }
        ensures ok { IfOk result (λ facts. Lists (InClosure self.now.axioms (given.now ∷ [])) facts.items) }
        ensures few { IfOk result (λ facts. length facts.items ≤ 2 * length self.now.terms) }
    {
        let facts = self.entailers().follows(alloc, given)?;
        Ok(facts)
    }
}
