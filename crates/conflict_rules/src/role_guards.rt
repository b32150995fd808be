ghost use Rattle.std.specs.Prelude.{◌≡◌, ◌≤◌, ◌*◌, ◌↔◌, ◌⊎◌, ◌∷◌, [], ℕ, IsTrue, IfOk, OnOk, Contains, length};
ghost use Rattle.dl_base.specs.Clash.{HasClash};
ghost use Rattle.dl_base.specs.Ontologies.{Knows};
ghost use Rattle.dl_base.specs.Patterns.{Matches};
ghost use Rattle.dl_base.specs.declared.patterns.Pattern as pattern_type;
ghost use Rattle.dl_base.specs.declared.patterns.Pattern.TheVariants as asked;
ghost use Rattle.dl_base.specs.declared.statements.Fact as fact_type;
ghost use Rattle.dl_base.specs.declared.statements.Fact.TheVariants as fact;
ghost use Rattle.dl_base.specs.declared.terms.RoleSide.TheVariants.{Direct, Inverse};
ghost use Rattle.conflict_rules.specs.Counts.{naming, AreAdded, AreGuardsBelow};
ghost use Rattle.dl_laws.specs.Meeting.{AreDisjointRoles, ShareFunctionalRole};
ghost use Rattle.conflict_rules.specs.RoleGuards.{IsRoleGuardAt, IsOtherGuardAt, IsKindGuardAt};

use crate::conflicts::Conflicts;
use dl_base::{Basic, Name, OutOfMemory, Pattern, RoleSide, Term};
use std::alloc::Global;

impl Conflicts {
    /// The patterns of the facts that clash with the role fact.
    pub(crate) fn guards_of_role(
        &self,
        alloc: Global,
        role: Term,
        from: &Name,
        to: &Name,
    ) -> Result<Vec<Pattern>, OutOfMemory>
        requires { ¬ HasClash self.now.axioms (fact.Role role from.now to.now ∷ []) }
        ensures exact { IfOk result (λ guards. (g : fact_type.Fact) → Knows self.now g → ¬ HasClash self.now.axioms (g ∷ [])
            → ((p : pattern_type.Pattern) × Contains guards.items p × Matches p g) ↔ HasClash self.now.axioms (fact.Role role from.now to.now ∷ g ∷ [])) }
        ensures few { IfOk result (λ guards. (n : ℕ) → naming n guards.items ≤ 8) }
        ensures size { IfOk result (λ guards. length guards.items ≤ 8 * length self.now.terms) }
    {
        let _terms = self.terms();
        let guards = self.all_role_guards(alloc, role, from, to)?;
        Ok(guards)
    }

    fn all_role_guards(
        &self,
        alloc: Global,
        role: Term,
        from: &Name,
        to: &Name,
    ) -> Result<Vec<Pattern>, OutOfMemory>
        ensures { IfOk result (λ guards. AreGuardsBelow (IsKindGuardAt self.now role from.now to.now) 8 (length self.now.terms) guards.items) }
    {
        let mut guards = Vec::new(alloc);
        let mut place = self.next_of_role(role, 0);
        while place < self.terms() {
            self.add_at(alloc, role, from, to, Term(place as u32), &mut guards)?;
            place = self.next_of_role(role, place + 1);
        }
        Ok(guards)
    }

    fn add_at(
        &self,
        alloc: Global,
        role: Term,
        from: &Name,
        to: &Name,
        term: Term,
        guards: &mut Vec<Pattern>,
    ) -> Result<(), OutOfMemory>
        ensures { OnOk result (AreAdded (IsKindGuardAt self.now role from.now to.now term) term.0 8 guards.old.items guards.new.items) }
    {
        if self.is_role(term) {
            self.add_role_guards(alloc, role, from, to, term, guards)?;
            return Ok(());
        }
        self.add_other_guards(alloc, role, from, to, term, guards)?;
        Ok(())
    }

    fn add_role_guards(
        &self,
        alloc: Global,
        role: Term,
        from: &Name,
        to: &Name,
        term: Term,
        guards: &mut Vec<Pattern>,
    ) -> Result<(), OutOfMemory>
        ensures { OnOk result (AreAdded (IsRoleGuardAt self.now.axioms role from.now to.now term) term.0 8 guards.old.items guards.new.items) }
    {
        let starts = Basic::Exists(RoleSide::Direct(role));
        let ends = Basic::Exists(RoleSide::Inverse(role));
        let direct = RoleSide::Direct(term);
        let inverse = RoleSide::Inverse(term);
        self.add_from(alloc, from, starts, term, guards)?;
        self.add_to(alloc, from, starts, term, guards)?;
        self.add_from(alloc, to, ends, term, guards)?;
        self.add_to(alloc, to, ends, term, guards)?;
        self.add_both(alloc, role, from, to, direct, inverse, term, guards)?;
        self.add_both(alloc, role, to, from, inverse, direct, term, guards)?;
        self.add_from_except(alloc, role, from, to, term, guards)?;
        self.add_to_except(alloc, role, from, to, term, guards)?;
        Ok(())
    }

    fn add_other_guards(
        &self,
        alloc: Global,
        role: Term,
        from: &Name,
        to: &Name,
        term: Term,
        guards: &mut Vec<Pattern>,
    ) -> Result<(), OutOfMemory>
        ensures { OnOk result (AreAdded (IsOtherGuardAt self.now.axioms role from.now to.now term) term.0 4 guards.old.items guards.new.items) }
    {
        let starts = Basic::Exists(RoleSide::Direct(role));
        let ends = Basic::Exists(RoleSide::Inverse(role));
        self.add_class(alloc, from, starts, term, guards)?;
        self.add_attr(alloc, from, starts, term, guards)?;
        self.add_class(alloc, to, ends, term, guards)?;
        self.add_attr(alloc, to, ends, term, guards)?;
        Ok(())
    }

    fn either_disjoint(&self, role: Term, one: RoleSide, other: RoleSide) -> bool
        ensures { IsTrue result ↔ (AreDisjointRoles self.now.axioms (Direct role) one ⊎ AreDisjointRoles self.now.axioms (Inverse role) other) }
    {
        if self.disjoint_roles(RoleSide::Direct(role), one) {
            return true;
        }
        self.disjoint_roles(RoleSide::Inverse(role), other)
    }

    fn add_both(
        &self,
        alloc: Global,
        role: Term,
        from: &Name,
        to: &Name,
        one: RoleSide,
        other: RoleSide,
        term: Term,
        guards: &mut Vec<Pattern>,
    ) -> Result<(), OutOfMemory>
        ensures { OnOk result (AreAdded (λ p. (p ≡ asked.RoleBoth term from.now to.now) × (AreDisjointRoles self.now.axioms (Direct role) one ⊎ AreDisjointRoles self.now.axioms (Inverse role) other)) term.0 1 guards.old.items guards.new.items) }
    {
        if !self.either_disjoint(role, one, other) {
            return Ok(());
        }
        guards.push(Pattern::RoleBoth(term, from.copy(alloc)?, to.copy(alloc)?))?;
        Ok(())
    }

    fn add_from_except(
        &self,
        alloc: Global,
        role: Term,
        from: &Name,
        to: &Name,
        term: Term,
        guards: &mut Vec<Pattern>,
    ) -> Result<(), OutOfMemory>
        ensures { OnOk result (AreAdded (λ p. (p ≡ asked.RoleFromExcept term from.now to.now) × ShareFunctionalRole self.now.axioms (Direct role) (Direct term)) term.0 1 guards.old.items guards.new.items) }
    {
        if !self.share_functional_role(RoleSide::Direct(role), RoleSide::Direct(term)) {
            return Ok(());
        }
        guards.push(Pattern::RoleFromExcept(term, from.copy(alloc)?, to.copy(alloc)?))?;
        Ok(())
    }

    fn add_to_except(
        &self,
        alloc: Global,
        role: Term,
        from: &Name,
        to: &Name,
        term: Term,
        guards: &mut Vec<Pattern>,
    ) -> Result<(), OutOfMemory>
        ensures { OnOk result (AreAdded (λ p. (p ≡ asked.RoleToExcept term to.now from.now) × ShareFunctionalRole self.now.axioms (Inverse role) (Inverse term)) term.0 1 guards.old.items guards.new.items) }
    {
        if !self.share_functional_role(RoleSide::Inverse(role), RoleSide::Inverse(term)) {
            return Ok(());
        }
        guards.push(Pattern::RoleToExcept(term, to.copy(alloc)?, from.copy(alloc)?))?;
        Ok(())
    }
}
