ghost use Rattle.std.specs.Prelude.{◌≡◌, ◌≤◌, ◌*◌, ◌↔◌, ◌∷◌, [], ℕ, IfOk, OnOk, Contains, length};
ghost use Rattle.dl_base.specs.Clash.{HasClash};
ghost use Rattle.dl_base.specs.Ontologies.{Knows};
ghost use Rattle.dl_base.specs.Patterns.{Matches};
ghost use Rattle.dl_base.specs.declared.patterns.Pattern as pattern_type;
ghost use Rattle.dl_base.specs.declared.patterns.Pattern.TheVariants as asked;
ghost use Rattle.dl_base.specs.declared.statements.Fact as fact_type;
ghost use Rattle.dl_base.specs.declared.statements.Fact.TheVariants as fact;
ghost use Rattle.conflict_rules.specs.AttrGuards.{IsAttrGuardAt};
ghost use Rattle.conflict_rules.specs.Counts.{naming, AreAdded, AreGuardsBelow};
ghost use Rattle.dl_laws.specs.Meeting.{AreDisjointAttrs, ShareFunctionalAttr};

use crate::conflicts::Conflicts;
use dl_base::{Basic, Name, OutOfMemory, Pattern, Term, Value};
use std::alloc::Global;

impl Conflicts {
    /// The patterns of the facts that clash with the attribute fact.
    pub(crate) fn guards_of_attr(
        &self,
        alloc: Global,
        attr: Term,
        name: &Name,
        value: &Value,
    ) -> Result<Vec<Pattern>, OutOfMemory>
        requires { ¬ HasClash self.now.axioms (fact.Attr attr name.now value.now ∷ []) }
        ensures exact { IfOk result (λ guards. (g : fact_type.Fact) → Knows self.now g → ¬ HasClash self.now.axioms (g ∷ [])
            → ((p : pattern_type.Pattern) × Contains guards.items p × Matches p g) ↔ HasClash self.now.axioms (fact.Attr attr name.now value.now ∷ g ∷ [])) }
        ensures few { IfOk result (λ guards. (n : ℕ) → naming n guards.items ≤ 6) }
        ensures size { IfOk result (λ guards. length guards.items ≤ 6 * length self.now.terms) }
    {
        let guards = self.all_attr_guards(alloc, attr, name, value)?;
        Ok(guards)
    }

    fn all_attr_guards(
        &self,
        alloc: Global,
        attr: Term,
        name: &Name,
        value: &Value,
    ) -> Result<Vec<Pattern>, OutOfMemory>
        ensures { IfOk result (λ guards. AreGuardsBelow (IsAttrGuardAt self.now.axioms attr name.now value.now) 6 (length self.now.terms) guards.items) }
    {
        let mut guards = Vec::new(alloc);
        let mut place = self.next_of_attr(attr, 0);
        while place < self.terms() {
            self.add_attr_guards(alloc, attr, name, value, Term(place as u32), &mut guards)?;
            place = self.next_of_attr(attr, place + 1);
        }
        Ok(guards)
    }

    fn add_attr_guards(
        &self,
        alloc: Global,
        attr: Term,
        name: &Name,
        value: &Value,
        term: Term,
        guards: &mut Vec<Pattern>,
    ) -> Result<(), OutOfMemory>
        ensures { OnOk result (AreAdded (IsAttrGuardAt self.now.axioms attr name.now value.now term) term.0 6 guards.old.items guards.new.items) }
    {
        self.add_class(alloc, name, Basic::Domain(attr), term, guards)?;
        self.add_from(alloc, name, Basic::Domain(attr), term, guards)?;
        self.add_to(alloc, name, Basic::Domain(attr), term, guards)?;
        self.add_attr(alloc, name, Basic::Domain(attr), term, guards)?;
        self.add_attr_both(alloc, attr, name, value, term, guards)?;
        self.add_attr_except(alloc, attr, name, value, term, guards)?;
        Ok(())
    }

    fn add_attr_both(
        &self,
        alloc: Global,
        attr: Term,
        name: &Name,
        value: &Value,
        term: Term,
        guards: &mut Vec<Pattern>,
    ) -> Result<(), OutOfMemory>
        ensures { OnOk result (AreAdded (λ p. (p ≡ asked.AttrBoth term name.now value.now) × AreDisjointAttrs self.now.axioms attr term) term.0 1 guards.old.items guards.new.items) }
    {
        if !self.disjoint_attrs(attr, term) {
            return Ok(());
        }
        guards.push(Pattern::AttrBoth(term, name.copy(alloc)?, value.copy(alloc)?))?;
        Ok(())
    }

    fn add_attr_except(
        &self,
        alloc: Global,
        attr: Term,
        name: &Name,
        value: &Value,
        term: Term,
        guards: &mut Vec<Pattern>,
    ) -> Result<(), OutOfMemory>
        ensures { OnOk result (AreAdded (λ p. (p ≡ asked.AttrOfExcept term name.now value.now) × ShareFunctionalAttr self.now.axioms attr term) term.0 1 guards.old.items guards.new.items) }
    {
        if !self.share_functional_attr(attr, term) {
            return Ok(());
        }
        guards.push(Pattern::AttrOfExcept(term, name.copy(alloc)?, value.copy(alloc)?))?;
        Ok(())
    }
}
