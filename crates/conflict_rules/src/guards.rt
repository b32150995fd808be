ghost use Rattle.std.specs.Prelude.{◌≤◌, ◌*◌, ◌↔◌, ◌∷◌, [], ℕ, IfOk, Contains, length};
ghost use Rattle.dl_base.specs.Clash.{HasClash};
ghost use Rattle.dl_base.specs.Ontologies.{Knows};
ghost use Rattle.dl_base.specs.Patterns.{Matches};
ghost use Rattle.dl_base.specs.declared.patterns.Pattern as pattern_type;
ghost use Rattle.dl_base.specs.declared.statements.Fact as fact_type;
ghost use Rattle.conflict_rules.specs.Counts.{naming};

use crate::conflicts::Conflicts;
use dl_base::{Fact, OutOfMemory, Pattern};
use std::alloc::Global;

impl Conflicts {
    /// The patterns of the facts that clash with the fact: at most 8 that name a term, and 8 for each term in all.
    pub fn guards_of(&self, alloc: Global, fact: &Fact) -> Result<Vec<Pattern>, OutOfMemory>
        requires { ¬ HasClash self.now.axioms (fact.now ∷ []) }
        ensures exact { IfOk result (λ guards. (g : fact_type.Fact) → Knows self.now g → ¬ HasClash self.now.axioms (g ∷ [])
            → ((p : pattern_type.Pattern) × Contains guards.items p × Matches p g) ↔ HasClash self.now.axioms (fact.now ∷ g ∷ [])) }
        ensures few { IfOk result (λ guards. (n : ℕ) → naming n guards.items ≤ 8) }
        ensures size { IfOk result (λ guards. length guards.items ≤ 8 * length self.now.terms) }
    {
        match fact {
            Fact::Class(class, name) => {
                let guards = self.guards_of_class(alloc, *class, name)?;
                Ok(guards)
            }
            Fact::Role(role, from, to) => {
                let guards = self.guards_of_role(alloc, *role, from, to)?;
                Ok(guards)
            }
            Fact::Attr(attr, name, value) => {
                let guards = self.guards_of_attr(alloc, *attr, name, value)?;
                Ok(guards)
            }
        }
    }
}

#[cfg(test)]
mod tests {
    use super::*;
    use dl_base::{Axiom, Basic, Kind, Name, Ontology, RoleSide, Term, Value};
    use std::test::Fail;
    use tbox_closure::close;

    const PERSON: Term = Term(0);

    const STAFF: Term = Term(1);

    const PROF: Term = Term(2);

    const STUDENT: Term = Term(3);

    const COURSE: Term = Term(4);

    const TEACHES: Term = Term(5);

    const HEAD_OF: Term = Term(6);

    const MENTORS: Term = Term(7);

    const BADGE: Term = Term(8);

    fn is_in(alloc: Global, class: Term, name: &[u8]) -> Result<Fact, OutOfMemory> {
        Ok(Fact::Class(class, Name::of(alloc, name)?))
    }

    fn stand_in(alloc: Global, role: Term, from: &[u8], to: &[u8]) -> Result<Fact, OutOfMemory> {
        Ok(Fact::Role(role, Name::of(alloc, from)?, Name::of(alloc, to)?))
    }

    fn has_badge(
        alloc: Global,
        name: &[u8],
        datatype: &[u8],
        text: &[u8],
    ) -> Result<Fact, OutOfMemory> {
        Ok(Fact::Attr(
            BADGE,
            Name::of(alloc, name)?,
            Value {
                datatype: Name::of(alloc, datatype)?,
                tag: Name::of(alloc, b"")?,
                text: Name::of(alloc, text)?,
            },
        ))
    }

    fn compiled(alloc: Global, more: Axiom) -> Result<Conflicts, Fail> {
        let mut terms = Vec::new(alloc);
        for (name, kind) in [
            (b"Person ", Kind::Class),
            (b"Staff  ", Kind::Class),
            (b"Prof   ", Kind::Class),
            (b"Student", Kind::Class),
            (b"Course ", Kind::Class),
            (b"teaches", Kind::Role),
            (b"headOf ", Kind::Role),
            (b"mentors", Kind::Role),
            (b"badge  ", Kind::Attr),
        ] {
            terms.push((Name::of(alloc, name)?, kind))?;
        }
        let axioms = vec![in alloc;
            Axiom::ConceptIn(Basic::Class(STAFF), Basic::Class(PERSON)),
            Axiom::ConceptIn(Basic::Class(PROF), Basic::Class(STAFF)),
            Axiom::ConceptApart(Basic::Class(STUDENT), Basic::Class(STAFF)),
            Axiom::ConceptIn(Basic::Exists(RoleSide::Direct(TEACHES)), Basic::Class(PROF)),
            Axiom::ConceptIn(
                Basic::Exists(RoleSide::Inverse(TEACHES)),
                Basic::Class(COURSE)
            ),
            Axiom::FunctionalRole(RoleSide::Direct(HEAD_OF)),
            Axiom::RoleApart(RoleSide::Direct(MENTORS), RoleSide::Inverse(MENTORS)),
            Axiom::FunctionalAttr(BADGE),
            Axiom::Range(BADGE, Name::of(alloc, b"integer")?),
            more,
        ]?;
        let ontology = Ontology::of(alloc, terms, axioms)?;
        let implied = close(alloc, &ontology)?;
        Ok(Conflicts::compile(alloc, &implied, &ontology)?)
    }

    fn clash(conflicts: &Conflicts, first: &Fact, second: &Fact) -> Option<bool> {
        if conflicts.alone(first) {
            return None;
        }
        if conflicts.alone(second) {
            return None;
        }
        Some(conflicts.pair(first, second))
    }

    fn guarded(
        alloc: Global,
        conflicts: &Conflicts,
        first: &Fact,
        second: &Fact,
    ) -> Result<Option<bool>, Fail> {
        if conflicts.alone(first) {
            return Ok(None);
        }
        let guards = conflicts.guards_of(alloc, first)?;
        Ok(Some(guards.iter().any(|guard| guard.matches(second))))
    }

    #[test]
    fn alone(rt: HostRuntime) -> Result<(), Fail> {
        let alloc = rt.alloc();
        let school = compiled(alloc, Axiom::FunctionalRole(RoleSide::Inverse(HEAD_OF)))?;
        let facts = vec![in alloc;
            (is_in(alloc, STUDENT, b"ann")?, false),
            (stand_in(alloc, MENTORS, b"ann", b"ann")?, true),
            (stand_in(alloc, MENTORS, b"ann", b"bob")?, false),
            (has_badge(alloc, b"ann", b"string", b"7")?, true),
            (has_badge(alloc, b"ann", b"integer", b"7")?, false),
        ]?;
        for (place, case) in facts.iter().enumerate() {
            assert_eq!(rt; school.alone(&case.0), case.1, "fact {place}");
        }
        Ok(())
    }

    #[test]
    fn two_ranges_of_one_attribute(rt: HostRuntime) -> Result<(), Fail> {
        let alloc = rt.alloc();
        let school = compiled(alloc, Axiom::Range(BADGE, Name::of(alloc, b"string")?))?;
        assert!(rt; school.alone(&has_badge(alloc, b"ann", b"string", b"7")?));
        Ok(())
    }

    // Who teaches is a professor, what is taught is a course, and nothing is both a course and a person.
    #[test]
    fn both_ends_of_a_role(rt: HostRuntime) -> Result<(), Fail> {
        let alloc = rt.alloc();
        let apart = Axiom::ConceptApart(Basic::Class(PERSON), Basic::Class(COURSE));
        let school = compiled(alloc, apart)?;
        assert!(rt; school.alone(&stand_in(alloc, TEACHES, b"ann", b"ann")?));
        assert!(rt; !school.alone(&stand_in(alloc, TEACHES, b"ann", b"cs1")?));
        Ok(())
    }

    // Each course would be taught by a student, who is a professor as who teaches.
    #[test]
    fn a_chosen_partner(rt: HostRuntime) -> Result<(), Fail> {
        let alloc = rt.alloc();
        let some = Axiom::ConceptSome(
            Basic::Class(COURSE),
            RoleSide::Inverse(TEACHES),
            Basic::Class(STUDENT),
        );
        let school = compiled(alloc, some)?;
        assert!(rt; school.alone(&is_in(alloc, COURSE, b"cs1")?));
        assert!(rt; school.alone(&stand_in(alloc, TEACHES, b"ann", b"cs1")?));
        assert!(rt; !school.alone(&is_in(alloc, STUDENT, b"ann")?));
        Ok(())
    }

    #[test]
    fn pairs_and_guards(rt: HostRuntime) -> Result<(), Fail> {
        let alloc = rt.alloc();
        let school = compiled(alloc, Axiom::FunctionalRole(RoleSide::Inverse(HEAD_OF)))?;
        let facts = vec![in alloc;
            is_in(alloc, STUDENT, b"ann")?,
            is_in(alloc, PROF, b"ann")?,
            stand_in(alloc, TEACHES, b"ann", b"cs1")?,
            stand_in(alloc, HEAD_OF, b"ann", b"cs")?,
            stand_in(alloc, HEAD_OF, b"ann", b"law")?,
            stand_in(alloc, HEAD_OF, b"bob", b"cs")?,
            stand_in(alloc, MENTORS, b"ann", b"bob")?,
            stand_in(alloc, MENTORS, b"bob", b"ann")?,
            has_badge(alloc, b"ann", b"integer", b"7")?,
            has_badge(alloc, b"ann", b"integer", b"8")?,
            has_badge(alloc, b"bob", b"integer", b"8")?,
        ]?;
        let clashing = [(0, 1), (0, 2), (3, 4), (3, 5), (6, 7), (8, 9)];
        for (i, first) in facts.iter().enumerate() {
            for (j, second) in facts.iter().enumerate() {
                let want = clashing.contains(&(i, j)) || clashing.contains(&(j, i));
                assert_eq!(rt;
                    clash(&school, first, second),
                    Some(want),
                    "facts {i} and {j}"
                );
                assert_eq!(rt;
                    guarded(alloc, &school, first, second)?,
                    Some(want),
                    "facts {i} and {j}"
                );
            }
        }
        Ok(())
    }
}
