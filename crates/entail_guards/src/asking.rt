ghost use Rattle.std.specs.Prelude.{◌≡◌, ◌↔◌, ◌⊎◌, ◌≤◌, ◌+◌, ◌*◌, IsTrue, IfOk, OnOk, length};
ghost use Rattle.dl_base.specs.Ontologies.{Knows};
ghost use Rattle.dl_base.specs.declared.statements.Fact as fact_type;
ghost use Rattle.dl_base.specs.declared.terms.Basic.TheVariants as basic;
ghost use Rattle.entail_guards.specs.Asking as asking;
ghost use Rattle.entail_guards.specs.Asking.{IsAsked, AddsOf, TwoEach, AsksMore, AsksBelow, OfTerm, Finds, Leads, ClassLeads, RoleLeads, AttrLeads};
ghost use Rattle.entail_guards.specs.Matching.{EntailsMatch};

use crate::entailers::Entailers;
use dl_base::{Basic, OutOfMemory, Pattern, RoleSide, Term};
use std::alloc::Global;

/// Which facts of a term are looked at: its class facts, its attribute facts, its role facts, or its role facts turned round.
#[derive(Clone, Copy, Debug, PartialEq, Eq)]
pub enum Way {
    Class,
    Attr,
    Direct,
    Inverse,
}

impl Entailers {
    /// Patterns that ask for the facts which entail one that the pattern asks for: at most two for each term.
    pub fn entailers(&self, alloc: Global, pattern: &Pattern) -> Result<Vec<Pattern>, OutOfMemory>
        ensures sound { IfOk result (λ patterns. (f : fact_type.Fact) → IsAsked patterns.items f → EntailsMatch self.now.axioms f pattern.now) }
        ensures complete { IfOk result (λ patterns. (f : fact_type.Fact) → Knows self.now f → EntailsMatch self.now.axioms f pattern.now → IsAsked patterns.items f) }
        ensures few { IfOk result (λ patterns. length patterns.items ≤ 2 * length self.now.terms) }
        ensures each { IfOk result (λ patterns. TwoEach patterns.items) }
    {
        let patterns = self.of_all_terms(alloc, pattern)?;
        Ok(patterns)
    }

    fn of_all_terms(&self, alloc: Global, pattern: &Pattern) -> Result<Vec<Pattern>, OutOfMemory>
        ensures asks { IfOk result (λ patterns. AsksBelow self.now pattern.now (length self.now.terms) patterns.items) }
        ensures few { IfOk result (λ patterns. length patterns.items ≤ 2 * length self.now.terms) }
        ensures each { IfOk result (λ patterns. TwoEach patterns.items) }
    {
        let mut patterns = Vec::new(alloc);
        for number in 0..self.terms() {
            self.add_of_term(alloc, Term(number as u32), pattern, &mut patterns)?;
        }
        Ok(patterns)
    }

    fn add_of_term(
        &self,
        alloc: Global,
        term: Term,
        pattern: &Pattern,
        patterns: &mut Vec<Pattern>,
    ) -> Result<(), OutOfMemory>
        ensures asks { OnOk result (AsksMore (OfTerm self.now term pattern.now) patterns.old.items patterns.new.items) }
        ensures few { OnOk result (length patterns.new.items ≤ length patterns.old.items + 2) }
        ensures each { OnOk result (AddsOf term.0 2 patterns.old.items patterns.new.items) }
    {
        if self.is_role(term) {
            self.add_by(alloc, Way::Direct, term, pattern, patterns)?;
            self.add_by(alloc, Way::Inverse, term, pattern, patterns)?;
            return Ok(());
        }
        self.add_by(alloc, Way::Class, term, pattern, patterns)?;
        self.add_by(alloc, Way::Attr, term, pattern, patterns)?;
        Ok(())
    }

    /// Adds a pattern of the term's facts where these lead, in this way, to what is asked for.
    fn add_by(
        &self,
        alloc: Global,
        by: Way,
        term: Term,
        pattern: &Pattern,
        patterns: &mut Vec<Pattern>,
    ) -> Result<(), OutOfMemory>
        ensures asks { OnOk result (AsksMore (Finds self.now.axioms by term pattern.now) patterns.old.items patterns.new.items) }
        ensures few { OnOk result (length patterns.new.items ≤ length patterns.old.items + 1) }
        ensures each { OnOk result (AddsOf term.0 1 patterns.old.items patterns.new.items) }
    {
        if !self.leads(by, term, pattern) {
            return Ok(());
        }
        patterns.push(turned(alloc, by, term, pattern)?)?;
        Ok(())
    }

    fn leads(&self, by: Way, term: Term, pattern: &Pattern) -> bool
        ensures { IsTrue result ↔ Leads self.now.axioms by term pattern.now }
    {
        match by {
            Way::Class => self.class_leads(Basic::Class(term), pattern),
            Way::Attr => {
                self.class_leads(Basic::Domain(term), pattern) || self.attr_leads(term, pattern)
            }
            Way::Direct => self.side_leads(RoleSide::Direct(term), pattern),
            Way::Inverse => self.side_leads(RoleSide::Inverse(term), pattern),
        }
    }

    fn side_leads(&self, side: RoleSide, pattern: &Pattern) -> bool
        ensures { IsTrue result ↔ (ClassLeads self.now.axioms (basic.Exists side) pattern.now ⊎ RoleLeads self.now.axioms side pattern.now) }
    {
        self.class_leads(Basic::Exists(side), pattern) || self.role_leads(side, pattern)
    }

    fn class_leads(&self, from: Basic, pattern: &Pattern) -> bool
        ensures { IsTrue result ↔ ClassLeads self.now.axioms from pattern.now }
    {
        match pattern {
            Pattern::Class(class) | Pattern::ClassOf(class, _) => self.reaches_class(from, *class),
            _ => false,
        }
    }

    fn role_leads(&self, from: RoleSide, pattern: &Pattern) -> bool
        ensures { IsTrue result ↔ RoleLeads self.now.axioms from pattern.now }
    {
        match pattern {
            Pattern::Role(role)
            | Pattern::RoleFrom(role, _)
            | Pattern::RoleTo(role, _)
            | Pattern::RoleBoth(role, _, _)
            | Pattern::RoleFromExcept(role, _, _)
            | Pattern::RoleToExcept(role, _, _) => self.reaches_role(from, *role),
            _ => false,
        }
    }

    fn attr_leads(&self, from: Term, pattern: &Pattern) -> bool
        ensures { IsTrue result ↔ AttrLeads self.now.axioms from pattern.now }
    {
        match pattern {
            Pattern::Attr(attr)
            | Pattern::AttrOf(attr, _)
            | Pattern::AttrValue(attr, _)
            | Pattern::AttrBoth(attr, _, _)
            | Pattern::AttrOfExcept(attr, _, _) => self.reaches_attr(from, *attr),
            _ => false,
        }
    }
}

/// The facts of the term that agree with what is asked for.
fn turned(alloc: Global, by: Way, term: Term, pattern: &Pattern) -> Result<Pattern, OutOfMemory>
    ensures { IfOk result (λ it. it ≡ asking.turned by term pattern.now) }
{
    match by {
        Way::Class => of_class(alloc, term, pattern),
        Way::Attr => of_attr(alloc, term, pattern),
        Way::Direct => of_direct(alloc, term, pattern),
        Way::Inverse => of_inverse(alloc, term, pattern),
    }
}

fn of_class(alloc: Global, term: Term, pattern: &Pattern) -> Result<Pattern, OutOfMemory>
    ensures { IfOk result (λ it. it ≡ asking.of_class term pattern.now) }
{
    match pattern {
        Pattern::ClassOf(_, a) => Ok(Pattern::ClassOf(term, a.copy(alloc)?)),
        _ => Ok(Pattern::Class(term)),
    }
}

fn of_attr(alloc: Global, term: Term, pattern: &Pattern) -> Result<Pattern, OutOfMemory>
    ensures { IfOk result (λ it. it ≡ asking.of_attr term pattern.now) }
{
    match pattern {
        Pattern::ClassOf(_, a) => Ok(Pattern::AttrOf(term, a.copy(alloc)?)),
        Pattern::AttrOf(_, a) => Ok(Pattern::AttrOf(term, a.copy(alloc)?)),
        Pattern::AttrValue(_, v) => Ok(Pattern::AttrValue(term, v.copy(alloc)?)),
        Pattern::AttrBoth(_, a, v) => {
            Ok(Pattern::AttrBoth(term, a.copy(alloc)?, v.copy(alloc)?))
        }
        Pattern::AttrOfExcept(_, a, v) => {
            Ok(Pattern::AttrOfExcept(term, a.copy(alloc)?, v.copy(alloc)?))
        }
        _ => Ok(Pattern::Attr(term)),
    }
}

fn of_direct(alloc: Global, term: Term, pattern: &Pattern) -> Result<Pattern, OutOfMemory>
    ensures { IfOk result (λ it. it ≡ asking.of_direct term pattern.now) }
{
    match pattern {
        Pattern::ClassOf(_, a) => Ok(Pattern::RoleFrom(term, a.copy(alloc)?)),
        Pattern::RoleFrom(_, a) => Ok(Pattern::RoleFrom(term, a.copy(alloc)?)),
        Pattern::RoleTo(_, b) => Ok(Pattern::RoleTo(term, b.copy(alloc)?)),
        Pattern::RoleBoth(_, a, b) => {
            Ok(Pattern::RoleBoth(term, a.copy(alloc)?, b.copy(alloc)?))
        }
        Pattern::RoleFromExcept(_, a, b) => {
            Ok(Pattern::RoleFromExcept(term, a.copy(alloc)?, b.copy(alloc)?))
        }
        Pattern::RoleToExcept(_, b, a) => {
            Ok(Pattern::RoleToExcept(term, b.copy(alloc)?, a.copy(alloc)?))
        }
        _ => Ok(Pattern::Role(term)),
    }
}

fn of_inverse(alloc: Global, term: Term, pattern: &Pattern) -> Result<Pattern, OutOfMemory>
    ensures { IfOk result (λ it. it ≡ asking.of_inverse term pattern.now) }
{
    match pattern {
        Pattern::ClassOf(_, a) => Ok(Pattern::RoleTo(term, a.copy(alloc)?)),
        Pattern::RoleFrom(_, a) => Ok(Pattern::RoleTo(term, a.copy(alloc)?)),
        Pattern::RoleTo(_, b) => Ok(Pattern::RoleFrom(term, b.copy(alloc)?)),
        Pattern::RoleBoth(_, a, b) => {
            Ok(Pattern::RoleBoth(term, b.copy(alloc)?, a.copy(alloc)?))
        }
        Pattern::RoleFromExcept(_, a, b) => {
            Ok(Pattern::RoleToExcept(term, a.copy(alloc)?, b.copy(alloc)?))
        }
        Pattern::RoleToExcept(_, b, a) => {
            Ok(Pattern::RoleFromExcept(term, b.copy(alloc)?, a.copy(alloc)?))
        }
        _ => Ok(Pattern::Role(term)),
    }
}

#[cfg(test)]
mod tests {
    use super::*;
    use crate::samples::{ASKED, ROWS, entailers, fact, ontology, pattern};
    use std::test::Fail;

    /// Of each fact of the rows whether one of the patterns asks for it, as `x` or `.`.
    fn matched(alloc: Global, patterns: &[Pattern]) -> Result<String, Fail> {
        let mut marks = String::new(alloc);
        for row in ROWS {
            let given = fact(alloc, row.0)?;
            let is_asked = patterns.iter().any(|pattern| pattern.matches(&given));
            marks.push(if is_asked { 'x' } else { '.' })?;
        }
        Ok(marks)
    }

    #[test]
    fn patterns_ask_for_what_entails_what_is_asked_for(rt: HostRuntime) -> Result<(), Fail> {
        let alloc = rt.alloc();
        let entailers = entailers(alloc, &ontology(alloc)?)?;
        for (form, want) in ASKED.into_iter().enumerate() {
            let asked = pattern(alloc, form)?;
            let patterns = entailers.entailers(alloc, &asked)?;
            let marks = matched(alloc, patterns.as_slice())?;
            assert_eq!(rt; marks.as_str(), want, "{asked:?}");
        }
        Ok(())
    }
}
