ghost use Rattle.std.specs.Prelude.{◌≡◌, ◌≤◌, ◌+◌, ◌↔◌, ◌∷◌, [], List, IfOk, Contains, length};
ghost use Rattle.dl_base.specs.Clash.{HasClash, IsConsistent};
ghost use Rattle.dl_base.specs.Ontologies.{Knows};
ghost use Rattle.dl_base.specs.Patterns.{Matches};
ghost use Rattle.dl_base.specs.Updates.{IsWellFormed, IsRemoved, Lists, Meets};
ghost use Rattle.dl_base.specs.declared.statements.Fact as fact_type;
ghost use Rattle.entail_guards.specs.Asking.{IsAsked};
ghost use Rattle.update_engine.specs.Counting.{most_to_find};
ghost use Rattle.update_engine.specs.Lookups.{IsSound, ClashesBeside, Entails, AskFor, AreFew};

use crate::rules::Rules;
use dl_base::{Fact, FactSet, OutOfMemory, Pattern, Steps};
use guard_eval::found;
use std::alloc::Global;
use std::sync::ledger::Ledger;

/// The facts of the set that meet the request, in order: the set is looked up by the guards of each insertion and the entailers of each
/// deletion.
pub fn meeting_facts<S: FactSet, L: Ledger>(
    alloc: Global,
    rules: &Rules,
    set: &S,
    inserts: &[Fact],
    deletes: &[Fact],
    steps: &mut Steps<L>,
) -> Result<Vec<Fact>, OutOfMemory>
    requires well { IsWellFormed rules.now.axioms inserts.now deletes.now }
    requires consistent { IsConsistent rules.now.axioms (S.facts set.now) }
    requires known { (f : fact_type.Fact) → Contains (S.facts set.now) f → Knows rules.now f }
    ensures met { IfOk result (λ met. Lists (IsRemoved rules.now.axioms (S.facts set.now) inserts.now deletes.now) met.items) }
    ensures counted { (met : List fact_type.Fact) → Lists (IsRemoved rules.now.axioms (S.facts set.now) inserts.now deletes.now) met
        → steps.new ≤ steps.old + most_to_find (length rules.now.terms) (length inserts.now + length deletes.now) (length met) }
{
    let patterns = meeting_patterns(alloc, rules, inserts, deletes)?;
    let met = found(alloc, patterns.as_slice(), set, steps)?;
    Ok(met)
}

/// Patterns that ask for the facts that meet the request.
fn meeting_patterns(
    alloc: Global,
    rules: &Rules,
    inserts: &[Fact],
    deletes: &[Fact],
) -> Result<Vec<Pattern>, OutOfMemory>
    requires { IsWellFormed rules.now.axioms inserts.now deletes.now }
    ensures asks { IfOk result (λ patterns. (f : fact_type.Fact) → IsSound rules.now f
        → IsAsked patterns.items f ↔ Meets rules.now.axioms inserts.now deletes.now f) }
    ensures few { IfOk result (λ patterns. AreFew (length rules.now.terms) (length inserts.now + length deletes.now) patterns.items) }
{
    let mut patterns = clashing_patterns(alloc, rules, inserts)?;
    patterns.append(&mut entailing_patterns(alloc, rules, deletes)?)?;
    Ok(patterns)
}

fn clashing_patterns(
    alloc: Global,
    rules: &Rules,
    inserts: &[Fact],
) -> Result<Vec<Pattern>, OutOfMemory>
    requires { ¬ HasClash rules.now.axioms inserts.now }
    ensures asks { IfOk result (λ patterns. AskFor rules.now (ClashesBeside rules.now.axioms) inserts.now patterns.items) }
    ensures few { IfOk result (λ patterns. AreFew (length rules.now.terms) (length inserts.now) patterns.items) }
{
    let mut patterns = Vec::new(alloc);
    for inserted in inserts {
        patterns.append(&mut guards_of(alloc, rules, inserted)?)?;
    }
    Ok(patterns)
}

fn entailing_patterns(
    alloc: Global,
    rules: &Rules,
    deletes: &[Fact],
) -> Result<Vec<Pattern>, OutOfMemory>
    ensures asks { IfOk result (λ patterns. AskFor rules.now (Entails rules.now.axioms) deletes.now patterns.items) }
    ensures few { IfOk result (λ patterns. AreFew (length rules.now.terms) (length deletes.now) patterns.items) }
{
    let mut patterns = Vec::new(alloc);
    for deleted in deletes {
        patterns.append(&mut entailers_of(alloc, rules, deleted)?)?;
    }
    Ok(patterns)
}

/// Patterns that ask for the facts that clash with the given one.
pub fn guards_of(alloc: Global, rules: &Rules, given: &Fact) -> Result<Vec<Pattern>, OutOfMemory>
    requires { ¬ HasClash rules.now.axioms (given.now ∷ []) }
    ensures asks { IfOk result (λ patterns. (f : fact_type.Fact) → IsSound rules.now f → IsAsked patterns.items f ↔ ClashesBeside rules.now.axioms given.now f) }
    ensures few { IfOk result (λ patterns. AreFew (length rules.now.terms) 1 patterns.items) }
{
    let patterns = rules.conflicts().guards_of(alloc, given)?;
    Ok(patterns)
}

fn entailers_of(alloc: Global, rules: &Rules, given: &Fact) -> Result<Vec<Pattern>, OutOfMemory>
    ensures asks { IfOk result (λ patterns. (f : fact_type.Fact) → IsSound rules.now f → IsAsked patterns.items f ↔ Entails rules.now.axioms given.now f) }
    ensures few { IfOk result (λ patterns. AreFew (length rules.now.terms) 1 patterns.items) }
{
    let pattern = only(alloc, given)?;
    let patterns = rules.entailers().entailers(alloc, &pattern)?;
    Ok(patterns)
}

/// The pattern that asks for the fact alone.
fn only(alloc: Global, given: &Fact) -> Result<Pattern, OutOfMemory>
    ensures { IfOk result (λ pattern. (f : fact_type.Fact) → Matches pattern f ↔ given.now ≡ f) }
{
    match given {
        Fact::Class(class, name) => Ok(Pattern::ClassOf(*class, name.copy(alloc)?)),
        Fact::Role(role, from, to) => {
            Ok(Pattern::RoleBoth(*role, from.copy(alloc)?, to.copy(alloc)?))
        }
        Fact::Attr(attr, name, value) => {
            Ok(Pattern::AttrBoth(*attr, name.copy(alloc)?, value.copy(alloc)?))
        }
    }
}

#[cfg(test)]
mod tests {
    use super::*;
    use crate::judging::judge;
    use crate::university::{
        BADGE, COURSE, HEAD_OF, Line, PERSON, PROF, STAFF, STUDENT, TEACHES, facts, university,
    };
    use std::test::Fail;

    const STORED: [Line; 8] = [
        (PROF, "ann", ""),
        (STAFF, "bob", ""),
        (TEACHES, "ann", "cs1"),
        (HEAD_OF, "ann", "d1"),
        (HEAD_OF, "bob", "d2"),
        (PERSON, "ann", ""),
        (BADGE, "ann", "7"),
        (TEACHES, "bob", "cs2"),
    ];

    /// Of each stored fact whether one of the patterns asks for it, as `x` or `.`.
    fn asked(
        alloc: Global,
        rules: &Rules,
        inserts: &[Line],
        deletes: &[Line],
    ) -> Result<String, Fail> {
        let inserts = facts(alloc, inserts)?;
        let deletes = facts(alloc, deletes)?;
        let stored = facts(alloc, &STORED)?;
        let mut marks = String::new(alloc);
        let inserted = inserts.as_slice();
        let deleted = deletes.as_slice();
        if let Err(_) = judge(rules, inserted, deleted) {
            return Ok(marks);
        }
        let patterns = meeting_patterns(alloc, rules, inserted, deleted)?;
        for fact in stored.iter() {
            let is_asked = patterns.iter().any(|pattern| pattern.matches(fact));
            marks.push(if is_asked { 'x' } else { '.' })?;
        }
        Ok(marks)
    }

    #[test]
    fn what_meets_is_asked_for_and_nothing_else(rt: HostRuntime) -> Result<(), Fail> {
        let alloc = rt.alloc();
        let rules = university(alloc)?;
        let nothing: &[Line] = &[];
        let student: &[Line] = &[(STUDENT, "ann", "")];
        let head: &[Line] = &[(HEAD_OF, "ann", "d2")];
        let badge: &[Line] = &[(BADGE, "ann", "8")];
        let person: &[Line] = &[(PERSON, "ann", "")];
        let course: &[Line] = &[(COURSE, "cs2", "")];
        let teaches: &[Line] = &[(TEACHES, "bob", "cs2")];
        for (inserts, deletes, want) in [
            (nothing, nothing, "........"),
            (student, nothing, "x.x....."),
            (head, nothing, "...x...."),
            (badge, nothing, "......x."),
            (nothing, person, "x.x..x.."),
            (nothing, course, ".......x"),
            (nothing, teaches, ".......x"),
            (head, person, "x.xx.x.."),
        ] {
            let marks = asked(alloc, &rules, inserts, deletes)?;
            assert_eq!(rt; marks.as_str(), want);
        }
        Ok(())
    }
}
