ghost use Rattle.std.specs.Prelude.{◌≡◌, ◌≤◌, ◌*◌, ◌↔◌, ◌∷◌, [], ℕ, IsTrue, IfOk, OnOk, Contains, length};
ghost use Rattle.dl_base.specs.Clash.{HasClash};
ghost use Rattle.dl_base.specs.Ontologies.{Knows};
ghost use Rattle.dl_base.specs.Patterns.{Matches};
ghost use Rattle.dl_base.specs.declared.patterns.Pattern as pattern_type;
ghost use Rattle.dl_base.specs.declared.patterns.Pattern.TheVariants as asked;
ghost use Rattle.dl_base.specs.declared.statements.Fact as fact_type;
ghost use Rattle.dl_base.specs.declared.statements.Fact.TheVariants as fact;
ghost use Rattle.dl_base.specs.declared.terms.Basic.TheVariants as basic;
ghost use Rattle.dl_base.specs.declared.terms.RoleSide.TheVariants.{Direct, Inverse};
ghost use Rattle.conflict_rules.specs.Counts.{naming, AreAdded, IsWhere, IsGuardAt, AreGuardsBelow};

use crate::conflicts::Conflicts;
use dl_base::{Basic, Name, OutOfMemory, Pattern, RoleSide, Term};
use std::alloc::Global;

impl Conflicts {
    /// The patterns of the facts that clash with the class fact.
    pub(crate) fn guards_of_class(
        &self,
        alloc: Global,
        class: Term,
        name: &Name,
    ) -> Result<Vec<Pattern>, OutOfMemory>
        requires { ¬ HasClash self.now.axioms (fact.Class class name.now ∷ []) }
        ensures exact { IfOk result (λ guards. (g : fact_type.Fact) → Knows self.now g → ¬ HasClash self.now.axioms (g ∷ [])
            → ((p : pattern_type.Pattern) × Contains guards.items p × Matches p g) ↔ HasClash self.now.axioms (fact.Class class name.now ∷ g ∷ [])) }
        ensures few { IfOk result (λ guards. (n : ℕ) → naming n guards.items ≤ 4) }
        ensures size { IfOk result (λ guards. length guards.items ≤ 4 * length self.now.terms) }
    {
        let guards = self.guards_of_concept(alloc, name, Basic::Class(class))?;
        Ok(guards)
    }

    fn guards_of_concept(
        &self,
        alloc: Global,
        name: &Name,
        concept: Basic,
    ) -> Result<Vec<Pattern>, OutOfMemory>
        ensures { IfOk result (λ guards. AreGuardsBelow (IsGuardAt self.now.axioms name.now concept) 4 (length self.now.terms) guards.items) }
    {
        let mut guards = Vec::new(alloc);
        let mut place = self.next_of_concept(concept, 0);
        while place < self.terms() {
            self.add_all(alloc, name, concept, Term(place as u32), &mut guards)?;
            place = self.next_of_concept(concept, place + 1);
        }
        Ok(guards)
    }

    fn add_all(
        &self,
        alloc: Global,
        name: &Name,
        concept: Basic,
        term: Term,
        guards: &mut Vec<Pattern>,
    ) -> Result<(), OutOfMemory>
        ensures { OnOk result (AreAdded (IsGuardAt self.now.axioms name.now concept term) term.0 4 guards.old.items guards.new.items) }
    {
        self.add_class(alloc, name, concept, term, guards)?;
        self.add_from(alloc, name, concept, term, guards)?;
        self.add_to(alloc, name, concept, term, guards)?;
        self.add_attr(alloc, name, concept, term, guards)?;
        Ok(())
    }

    pub(crate) fn add_class(
        &self,
        alloc: Global,
        name: &Name,
        concept: Basic,
        term: Term,
        guards: &mut Vec<Pattern>,
    ) -> Result<(), OutOfMemory>
        ensures { OnOk result (AreAdded (IsWhere self.now.axioms concept (basic.Class term) (asked.ClassOf term name.now)) term.0 1 guards.old.items guards.new.items) }
    {
        if !self.disjoint_concepts(concept, Basic::Class(term)) {
            return Ok(());
        }
        guards.push(Pattern::ClassOf(term, name.copy(alloc)?))?;
        Ok(())
    }

    pub(crate) fn add_from(
        &self,
        alloc: Global,
        name: &Name,
        concept: Basic,
        term: Term,
        guards: &mut Vec<Pattern>,
    ) -> Result<(), OutOfMemory>
        ensures { OnOk result (AreAdded (IsWhere self.now.axioms concept (basic.Exists (Direct term)) (asked.RoleFrom term name.now)) term.0 1 guards.old.items guards.new.items) }
    {
        if !self.disjoint_concepts(concept, Basic::Exists(RoleSide::Direct(term))) {
            return Ok(());
        }
        guards.push(Pattern::RoleFrom(term, name.copy(alloc)?))?;
        Ok(())
    }

    pub(crate) fn add_to(
        &self,
        alloc: Global,
        name: &Name,
        concept: Basic,
        term: Term,
        guards: &mut Vec<Pattern>,
    ) -> Result<(), OutOfMemory>
        ensures { OnOk result (AreAdded (IsWhere self.now.axioms concept (basic.Exists (Inverse term)) (asked.RoleTo term name.now)) term.0 1 guards.old.items guards.new.items) }
    {
        if !self.disjoint_concepts(concept, Basic::Exists(RoleSide::Inverse(term))) {
            return Ok(());
        }
        guards.push(Pattern::RoleTo(term, name.copy(alloc)?))?;
        Ok(())
    }

    pub(crate) fn add_attr(
        &self,
        alloc: Global,
        name: &Name,
        concept: Basic,
        term: Term,
        guards: &mut Vec<Pattern>,
    ) -> Result<(), OutOfMemory>
        ensures { OnOk result (AreAdded (IsWhere self.now.axioms concept (basic.Domain term) (asked.AttrOf term name.now)) term.0 1 guards.old.items guards.new.items) }
    {
        if !self.disjoint_concepts(concept, Basic::Domain(term)) {
            return Ok(());
        }
        guards.push(Pattern::AttrOf(term, name.copy(alloc)?))?;
        Ok(())
    }
}
