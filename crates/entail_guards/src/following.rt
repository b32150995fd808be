ghost use Rattle.std.specs.Prelude.{◌≡◌, ◌≤◌, ◌+◌, ◌*◌, ◌⊎◌, ◌∷◌, [], IfOk, OnOk, length};
ghost use Rattle.dl_base.specs.Derivation.{InClosure};
ghost use Rattle.dl_base.specs.Ontologies.{Knows, IsKnown};
ghost use Rattle.dl_base.specs.Picks.{Collects};
ghost use Rattle.dl_base.specs.Updates.{Lists};
ghost use Rattle.dl_base.specs.declared.statements.Fact.TheVariants as fact;
ghost use Rattle.entail_guards.specs.Following.{FollowsAt, Gains};

use crate::entailers::Entailers;
use dl_base::{Fact, Name, OutOfMemory, Term, Value, sorted_once};
use std::alloc::Global;

impl Entailers {
    /// The closure of the fact, in order: at most two facts for each term.
    pub fn follows(&self, alloc: Global, given: &Fact) -> Result<Vec<Fact>, OutOfMemory>
        requires { Knows self.now given.now }
        ensures ok { IfOk result (λ facts. Lists (InClosure self.now.axioms (given.now ∷ [])) facts.items) }
        ensures few { IfOk result (λ facts. length facts.items ≤ 2 * length self.now.terms) }
    {
        let facts = self.gather(alloc, given)?;
        Ok(sorted_once(facts)?)
    }

    fn gather(&self, alloc: Global, given: &Fact) -> Result<Vec<Fact>, OutOfMemory>
        requires { Knows self.now given.now }
        ensures found { IfOk result (λ facts. Collects (FollowsAt self.now.axioms given.now) (length self.now.terms) facts.items) }
        ensures known { IfOk result (λ facts. IsKnown self.now) }
        ensures few { IfOk result (λ facts. length facts.items ≤ 2 * length self.now.terms) }
    {
        let mut facts = Vec::new(alloc);
        for number in 0..self.terms() {
            self.add_term(alloc, given, Term(number as u32), &mut facts)?;
        }
        Ok(facts)
    }

    /// Adds the facts of the term that the given one entails.
    fn add_term(
        &self,
        alloc: Global,
        given: &Fact,
        term: Term,
        facts: &mut Vec<Fact>,
    ) -> Result<(), OutOfMemory>
        requires known { IsKnown self.now }
        requires given { Knows self.now given.now }
        ensures gains { OnOk result (Gains (FollowsAt self.now.axioms given.now term.0) facts.old.items facts.new.items) }
        ensures few { OnOk result (length facts.new.items ≤ length facts.old.items + 2) }
    {
        match given {
            Fact::Class(_, a) => {
                self.add_class(alloc, given, term, a, facts)?;
                Ok(())
            }
            Fact::Role(_, a, b) => {
                self.add_for_role(alloc, given, term, a, b, facts)?;
                Ok(())
            }
            Fact::Attr(_, a, v) => {
                self.add_for_attr(alloc, given, term, a, v, facts)?;
                Ok(())
            }
        }
    }

    fn add_for_role(
        &self,
        alloc: Global,
        given: &Fact,
        term: Term,
        from: &Name,
        to: &Name,
        facts: &mut Vec<Fact>,
    ) -> Result<(), OutOfMemory>
        requires known { IsKnown self.now }
        requires given { Knows self.now given.now }
        ensures gains { OnOk result (Gains (λ g. ((g ≡ fact.Class term from.now) ⊎ ((g ≡ fact.Class term to.now) ⊎ ((g ≡ fact.Role term from.now to.now) ⊎ (g ≡ fact.Role term to.now from.now)))) × InClosure self.now.axioms (given.now ∷ []) g) facts.old.items facts.new.items) }
        ensures few { OnOk result (length facts.new.items ≤ length facts.old.items + 2) }
    {
        if self.is_role(term) {
            self.add_role(alloc, given, term, from, to, facts)?;
            self.add_role(alloc, given, term, to, from, facts)?;
            return Ok(());
        }
        self.add_class(alloc, given, term, from, facts)?;
        self.add_class(alloc, given, term, to, facts)?;
        Ok(())
    }

    fn add_for_attr(
        &self,
        alloc: Global,
        given: &Fact,
        term: Term,
        from: &Name,
        value: &Value,
        facts: &mut Vec<Fact>,
    ) -> Result<(), OutOfMemory>
        ensures gains { OnOk result (Gains (λ g. ((g ≡ fact.Class term from.now) ⊎ (g ≡ fact.Attr term from.now value.now)) × InClosure self.now.axioms (given.now ∷ []) g) facts.old.items facts.new.items) }
        ensures few { OnOk result (length facts.new.items ≤ length facts.old.items + 2) }
    {
        self.add_class(alloc, given, term, from, facts)?;
        self.add_attr(alloc, given, term, from, value, facts)?;
        Ok(())
    }

    fn add_class(
        &self,
        alloc: Global,
        given: &Fact,
        term: Term,
        name: &Name,
        facts: &mut Vec<Fact>,
    ) -> Result<(), OutOfMemory>
        ensures gains { OnOk result (Gains (λ g. (g ≡ fact.Class term name.now) × InClosure self.now.axioms (given.now ∷ []) g) facts.old.items facts.new.items) }
        ensures few { OnOk result (length facts.new.items ≤ length facts.old.items + 1) }
    {
        let follower = Fact::Class(term, name.copy(alloc)?);
        self.add(given, follower, facts)?;
        Ok(())
    }

    fn add_role(
        &self,
        alloc: Global,
        given: &Fact,
        term: Term,
        from: &Name,
        to: &Name,
        facts: &mut Vec<Fact>,
    ) -> Result<(), OutOfMemory>
        ensures gains { OnOk result (Gains (λ g. (g ≡ fact.Role term from.now to.now) × InClosure self.now.axioms (given.now ∷ []) g) facts.old.items facts.new.items) }
        ensures few { OnOk result (length facts.new.items ≤ length facts.old.items + 1) }
    {
        let follower = Fact::Role(term, from.copy(alloc)?, to.copy(alloc)?);
        self.add(given, follower, facts)?;
        Ok(())
    }

    fn add_attr(
        &self,
        alloc: Global,
        given: &Fact,
        term: Term,
        from: &Name,
        value: &Value,
        facts: &mut Vec<Fact>,
    ) -> Result<(), OutOfMemory>
        ensures gains { OnOk result (Gains (λ g. (g ≡ fact.Attr term from.now value.now) × InClosure self.now.axioms (given.now ∷ []) g) facts.old.items facts.new.items) }
        ensures few { OnOk result (length facts.new.items ≤ length facts.old.items + 1) }
    {
        let follower = Fact::Attr(term, from.copy(alloc)?, value.copy(alloc)?);
        self.add(given, follower, facts)?;
        Ok(())
    }

    /// Adds the fact if the given one entails it.
    fn add(&self, given: &Fact, follower: Fact, facts: &mut Vec<Fact>) -> Result<(), OutOfMemory>
        ensures gains { OnOk result (Gains (λ g. (g ≡ follower) × InClosure self.now.axioms (given.now ∷ []) g) facts.old.items facts.new.items) }
        ensures few { OnOk result (length facts.new.items ≤ length facts.old.items + 1) }
    {
        if !self.entails(given, &follower) {
            return Ok(());
        }
        facts.push(follower)?;
        Ok(())
    }
}

#[cfg(test)]
mod tests {
    use super::*;
    use crate::samples::{ROWS, entailers, fact, facts, ontology};
    use std::test::Fail;

    #[test]
    fn closures_of_single_facts_are_their_rows(rt: HostRuntime) -> Result<(), Fail> {
        let alloc = rt.alloc();
        let ontology = ontology(alloc)?;
        let entailers = entailers(alloc, &ontology)?;
        for (given, entailed) in ROWS {
            let given = fact(alloc, given)?;
            assert!(rt; ontology.knows(&given));
            let wanted = facts(alloc, entailed)?;
            let found = entailers.follows(alloc, &given)?;
            assert_eq!(rt; found.as_slice(), wanted.as_slice());
        }
        Ok(())
    }
}
