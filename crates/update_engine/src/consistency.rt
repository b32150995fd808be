ghost use Rattle.std.specs.Prelude.{◌≡◌, ◌≤◌, ◌+◌, ◌*◌, ◌↔◌, ◌∷◌, [], None, IsTrue, IfNone, IfOk, IfSome, Contains, length};
ghost use Rattle.dl_base.specs.Clash.{HasClash, IsConsistent};
ghost use Rattle.dl_base.specs.IllFormed.{NamesPair};
ghost use Rattle.dl_base.specs.Ontologies.{Knows};
ghost use Rattle.dl_base.specs.declared.statements.Fact as fact_type;
ghost use Rattle.update_engine.specs.Judging.{IsClash, NoneAlone, NoPair};
ghost use Rattle.update_engine.specs.Lookups.{IsSound, HasPartner};

use crate::clashes::{Clash, first_alone, first_partner};
use crate::lookups::guards_of;
use crate::rules::Rules;
use dl_base::{Fact, FactSet, OutOfMemory, Steps};
use guard_eval::found;
use std::alloc::Global;
use std::sync::ledger::Ledger;

/// The first clash of the facts, as `first_clash` tells it, by look-ups in a set of the same facts: for each fact the set is looked up by
/// its guards. Where the facts are consistent it takes at most 8 steps for each fact and term.
pub fn first_clash_in<S: FactSet, L: Ledger>(
    alloc: Global,
    rules: &Rules,
    set: &S,
    facts: &[Fact],
    steps: &mut Steps<L>,
) -> Result<Option<Clash>, OutOfMemory>
    requires same { (f : fact_type.Fact) → Contains (S.facts set.now) f ↔ Contains facts.now f }
    requires known { (f : fact_type.Fact) → Contains facts.now f → Knows rules.now f }
    ensures clash { IfOk result (λ clash. IfSome clash (IsClash rules.now.axioms facts.now)) }
    ensures consistent { IfOk result (λ clash. IfNone clash (IsConsistent rules.now.axioms facts.now)) }
    ensures counted { IsConsistent rules.now.axioms facts.now → steps.new ≤ steps.old + 8 * length rules.now.terms * length facts.now }
{
    if let Some(place) = first_alone(rules, facts) {
        return Ok(Some(Clash::Alone(place)));
    }
    if let Some((place, other)) = first_pair_in(alloc, rules, set, facts, steps)? {
        return Ok(Some(Clash::Pair(place, other)));
    }
    Ok(None)
}

/// The first two facts that clash.
fn first_pair_in<S: FactSet, L: Ledger>(
    alloc: Global,
    rules: &Rules,
    set: &S,
    facts: &[Fact],
    steps: &mut Steps<L>,
) -> Result<Option<(usize, usize)>, OutOfMemory>
    requires alone { NoneAlone rules.now.axioms facts.now }
    requires same { (f : fact_type.Fact) → Contains (S.facts set.now) f ↔ Contains facts.now f }
    requires known { (f : fact_type.Fact) → Contains facts.now f → Knows rules.now f }
    ensures some { IfOk result (λ found. IfSome found (λ places. NamesPair rules.now.axioms facts.now places.0 places.1)) }
    ensures none { IfOk result (λ found. found ≡ None → NoPair rules.now.axioms facts.now) }
    ensures counted { IsConsistent rules.now.axioms facts.now → steps.new ≤ steps.old + 8 * length rules.now.terms * length facts.now }
{
    for place in 0..facts.len() {
        if has_partner(alloc, rules, set, &facts[place], steps)? {
            if let Some(other) = first_partner(rules, facts, place) {
                return Ok(Some((place, other)));
            }
        }
    }
    Ok(None)
}

/// Whether a fact of the set clashes with the given one.
fn has_partner<S: FactSet, L: Ledger>(
    alloc: Global,
    rules: &Rules,
    set: &S,
    given: &Fact,
    steps: &mut Steps<L>,
) -> Result<bool, OutOfMemory>
    requires given { ¬ HasClash rules.now.axioms (given.now ∷ []) }
    requires sound { (f : fact_type.Fact) → Contains (S.facts set.now) f → IsSound rules.now f }
    ensures has { IfOk result (λ has. IsTrue has ↔ HasPartner rules.now.axioms (S.facts set.now) given.now) }
    ensures counted { (¬ HasPartner rules.now.axioms (S.facts set.now) given.now) → steps.new ≤ steps.old + 8 * length rules.now.terms }
{
    let patterns = guards_of(alloc, rules, given)?;
    let partners = found(alloc, patterns.as_slice(), set, steps)?;
    if partners.as_slice().is_empty() {
        return Ok(false);
    }
    Ok(true)
}

#[cfg(test)]
mod tests {
    use super::*;
    use crate::university::{
        COURSE, HEAD_OF, Line, MENTORS, PERSON, PROF, STUDENT, TEACHES, facts, university,
    };
    use dl_base::PlainSet;
    use std::marker::Brand;
    use std::process::Abort;
    use std::sync::ledger::Blank;
    use std::test::Fail;

    #[test]
    fn the_first_clash_is_found_by_look_ups(rt: HostRuntime) -> Result<(), Fail> {
        let alloc = rt.alloc();
        let rules = university(alloc)?;
        let fine: &[Line] = &[
            (PERSON, "bob", ""),
            (COURSE, "cs1", ""),
            (TEACHES, "ann", "cs1"),
        ];
        let taught: &[Line] = &[
            (PERSON, "bob", ""),
            (STUDENT, "ann", ""),
            (TEACHES, "ann", "cs1"),
        ];
        let headed: &[Line] = &[
            (PROF, "ann", ""),
            (HEAD_OF, "ann", "d1"),
            (HEAD_OF, "ann", "d2"),
        ];
        let alone: &[Line] = &[
            (PROF, "ann", ""),
            (STUDENT, "ann", ""),
            (MENTORS, "bob", "bob"),
        ];
        for (lines, want) in [
            (fine, None),
            (taught, Some(Clash::Pair(1, 2))),
            (headed, Some(Clash::Pair(1, 2))),
            (alone, Some(Clash::Alone(2))),
        ] {
            assert_eq!(rt; clash_of(&rt, alloc, &rules, lines)?, want);
        }
        Ok(())
    }

    /// The first clash of the facts of these lines, which are known, by places in their order.
    fn clash_of(
        rt: &impl Abort,
        alloc: Global,
        rules: &Rules,
        lines: &[Line],
    ) -> Result<Option<Clash>, OutOfMemory> {
        let set = PlainSet::of(alloc, facts(alloc, lines)?)?;
        assert!(rt; rules.knows_all(set.as_slice()));
        clash_in::<Brand>(alloc, rules, &set, Blank::new(1))
    }

    fn clash_in<L: Ledger>(
        alloc: Global,
        rules: &Rules,
        set: &PlainSet,
        blank: Blank,
    ) -> Result<Option<Clash>, OutOfMemory>
        requires name { blank.name ≡ L.name }
        requires parts { blank.parts ≡ L.parts }
        requires one { blank.parts ≡ 1 }
        requires known { (f : fact_type.Fact) → Contains set.now f → Knows rules.now f }
    {
        let mut steps: Steps<L> = Steps::new(blank);
        let clash = first_clash_in(alloc, rules, set, set.as_slice(), &mut steps)?;
        Ok(clash)
    }
}
