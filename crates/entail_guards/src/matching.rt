ghost use Rattle.std.specs.Prelude.{◌↔◌, ◌⊎◌, IsTrue};
ghost use Rattle.dl_base.specs.declared.terms.Basic.TheVariants as basic;
ghost use Rattle.dl_base.specs.declared.terms.RoleSide.TheVariants.{Direct, Inverse};
ghost use Rattle.entail_guards.specs.Matching.{EntailsMatch, FactMatches, ClassMatches, RoleMatches, AttrMatches};

use crate::entailers::Entailers;
use dl_base::{Basic, Fact, Name, Pattern, RoleSide, Term, Value};

impl Entailers {
    /// Whether the closure of the fact holds one that the pattern asks for. It takes no memory.
    pub fn entails_match(&self, given: &Fact, pattern: &Pattern) -> bool
        ensures { IsTrue result ↔ EntailsMatch self.now.axioms given.now pattern.now }
    {
        self.fact_matches(given, pattern)
    }

    fn fact_matches(&self, given: &Fact, pattern: &Pattern) -> bool
        ensures { IsTrue result ↔ FactMatches self.now.axioms given.now pattern.now }
    {
        match given {
            Fact::Class(class, a) => self.class_matches(Basic::Class(*class), a, pattern),
            Fact::Role(role, a, b) => {
                self.ends_match(*role, a, b, pattern) || self.sides_match(*role, a, b, pattern)
            }
            Fact::Attr(attr, a, v) => {
                self.class_matches(Basic::Domain(*attr), a, pattern)
                    || self.attr_matches(*attr, a, v, pattern)
            }
        }
    }

    /// Of the classes of the two ends of the role.
    fn ends_match(&self, role: Term, from: &Name, to: &Name, pattern: &Pattern) -> bool
        ensures { IsTrue result ↔ (ClassMatches self.now.axioms (basic.Exists (Direct role)) from.now pattern.now ⊎ ClassMatches self.now.axioms (basic.Exists (Inverse role)) to.now pattern.now) }
    {
        self.class_matches(Basic::Exists(RoleSide::Direct(role)), from, pattern)
            || self.class_matches(Basic::Exists(RoleSide::Inverse(role)), to, pattern)
    }

    /// Of the roles above the role and its inverse.
    fn sides_match(&self, role: Term, from: &Name, to: &Name, pattern: &Pattern) -> bool
        ensures { IsTrue result ↔ (RoleMatches self.now.axioms (Direct role) from.now to.now pattern.now ⊎ RoleMatches self.now.axioms (Inverse role) to.now from.now pattern.now) }
    {
        self.role_matches(RoleSide::Direct(role), from, to, pattern)
            || self.role_matches(RoleSide::Inverse(role), to, from, pattern)
    }

    fn class_matches(&self, from: Basic, name: &Name, pattern: &Pattern) -> bool
        ensures { IsTrue result ↔ ClassMatches self.now.axioms from name.now pattern.now }
    {
        match pattern {
            Pattern::Class(class) => self.reaches_class(from, *class),
            Pattern::ClassOf(class, a) => a.is(name) && self.reaches_class(from, *class),
            _ => false,
        }
    }

    fn role_matches(&self, from: RoleSide, one: &Name, other: &Name, pattern: &Pattern) -> bool
        ensures { IsTrue result ↔ RoleMatches self.now.axioms from one.now other.now pattern.now }
    {
        match pattern {
            Pattern::Role(role) => self.reaches_role(from, *role),
            Pattern::RoleFrom(role, a) => a.is(one) && self.reaches_role(from, *role),
            Pattern::RoleTo(role, b) => b.is(other) && self.reaches_role(from, *role),
            Pattern::RoleBoth(role, a, b) => {
                a.is(one) && b.is(other) && self.reaches_role(from, *role)
            }
            Pattern::RoleFromExcept(role, a, b) => {
                a.is(one) && !b.is(other) && self.reaches_role(from, *role)
            }
            Pattern::RoleToExcept(role, b, a) => {
                b.is(other) && !a.is(one) && self.reaches_role(from, *role)
            }
            _ => false,
        }
    }

    fn attr_matches(&self, from: Term, one: &Name, value: &Value, pattern: &Pattern) -> bool
        ensures { IsTrue result ↔ AttrMatches self.now.axioms from one.now value.now pattern.now }
    {
        match pattern {
            Pattern::Attr(attr) => self.reaches_attr(from, *attr),
            Pattern::AttrOf(attr, a) => a.is(one) && self.reaches_attr(from, *attr),
            Pattern::AttrValue(attr, v) => v.is(value) && self.reaches_attr(from, *attr),
            Pattern::AttrBoth(attr, a, v) => {
                a.is(one) && v.is(value) && self.reaches_attr(from, *attr)
            }
            Pattern::AttrOfExcept(attr, a, v) => {
                a.is(one) && !v.is(value) && self.reaches_attr(from, *attr)
            }
            _ => false,
        }
    }
}

#[cfg(test)]
mod tests {
    use super::*;
    use crate::samples::{ASKED, ROWS, entailers, fact, ontology, pattern};
    use std::alloc::Global;
    use std::test::Fail;

    /// Of each fact of the rows whether it entails one that is asked for, as `x` or `.`.
    fn matched(alloc: Global, entailers: &Entailers, asked: &Pattern) -> Result<String, Fail> {
        let mut marks = String::new(alloc);
        for row in ROWS {
            let given = fact(alloc, row.0)?;
            let mark = if entailers.entails_match(&given, asked) {
                'x'
            } else {
                '.'
            };
            marks.push(mark)?;
        }
        Ok(marks)
    }

    #[test]
    fn facts_entail_what_is_asked_for(rt: HostRuntime) -> Result<(), Fail> {
        let alloc = rt.alloc();
        let entailers = entailers(alloc, &ontology(alloc)?)?;
        for (form, want) in ASKED.into_iter().enumerate() {
            let asked = pattern(alloc, form)?;
            let marks = matched(alloc, &entailers, &asked)?;
            assert_eq!(rt; marks.as_str(), want, "{asked:?}");
        }
        Ok(())
    }
}
