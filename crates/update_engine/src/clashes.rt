ghost use Rattle.std.specs.Prelude.{◌≡◌, ◌<◌, ℕ, None, IfNone, IfSome, length};
ghost use Rattle.dl_base.specs.Clash.{IsConsistent};
ghost use Rattle.dl_base.specs.IllFormed.{NamesAlone, NamesPair, ClashAt};
ghost use Rattle.update_engine.specs.Judging.{IsClash, NoneAlone, NoPair, IsPartner};

use crate::rules::Rules;
use dl_base::Fact;

/// How a list of facts contradicts the axioms: by the fact at a place alone, or by two. Places count from 0.
#[derive(Debug, Clone, Copy, PartialEq, Eq)]
pub enum Clash {
    Alone(usize),
    Pair(usize, usize),
}

/// The first clash of the facts: the least place of a fact that clashes by itself, else the least two places of facts that clash.
/// `None` where the facts are consistent.
pub fn first_clash(rules: &Rules, facts: &[Fact]) -> Option<Clash>
    ensures clash { IfSome result (IsClash rules.now.axioms facts.now) }
    ensures consistent { IfNone result (IsConsistent rules.now.axioms facts.now) }
{
    if let Some(place) = first_alone(rules, facts) {
        return Some(Clash::Alone(place));
    }
    if let Some((place, other)) = first_pair(rules, facts) {
        return Some(Clash::Pair(place, other));
    }
    None
}

/// The first fact that clashes by itself.
pub fn first_alone(rules: &Rules, facts: &[Fact]) -> Option<usize>
    ensures some { IfSome result (NamesAlone rules.now.axioms facts.now) }
    ensures none { result ≡ None → NoneAlone rules.now.axioms facts.now }
{
    for place in 0..facts.len() {
        if rules.alone(&facts[place]) {
            return Some(place);
        }
    }
    None
}

/// The first two facts that clash.
fn first_pair(rules: &Rules, facts: &[Fact]) -> Option<(usize, usize)>
    requires { NoneAlone rules.now.axioms facts.now }
    ensures some { IfSome result (λ places. NamesPair rules.now.axioms facts.now places.0 places.1) }
    ensures none { result ≡ None → NoPair rules.now.axioms facts.now }
{
    for place in 0..facts.len() {
        if let Some(other) = first_partner(rules, facts, place) {
            return Some((place, other));
        }
    }
    None
}

/// The first later fact that clashes with the one at this place.
pub fn first_partner(rules: &Rules, facts: &[Fact], place: usize) -> Option<usize>
    requires alone { NoneAlone rules.now.axioms facts.now }
    requires within { place < length facts.now }
    ensures some { IfSome result (IsPartner rules.now.axioms facts.now place) }
    ensures none { result ≡ None → (l : ℕ) → ¬ ClashAt rules.now.axioms facts.now place l }
{
    for other in place + 1..facts.len() {
        if rules.pair(&facts[place], &facts[other]) {
            return Some(other);
        }
    }
    None
}

#[cfg(test)]
mod tests {
    use super::*;
    use crate::university::{
        Line, MENTORS, PERSON, PROF, STUDENT, TEACHES, facts, torn_partner, torn_value, university,
    };
    use dl_base::OutOfMemory;
    use std::alloc::Global;
    use std::test::Fail;

    #[test]
    fn the_first_clash_is_told(rt: HostRuntime) -> Result<(), Fail> {
        let alloc = rt.alloc();
        let rules = university(alloc)?;
        let taught: &[Line] = &[(STUDENT, "ann", ""), (TEACHES, "ann", "cs1")];
        let later: &[Line] = &[(PROF, "ann", ""), (PERSON, "bob", ""), (STUDENT, "ann", "")];
        let alone: &[Line] = &[
            (PROF, "ann", ""),
            (STUDENT, "ann", ""),
            (MENTORS, "bob", "bob"),
        ];
        assert_eq!(rt; clash_of(alloc, &rules, &[])?, None);
        assert_eq!(rt; clash_of(alloc, &rules, taught)?, Some(Clash::Pair(0, 1)));
        assert_eq!(rt; clash_of(alloc, &rules, later)?, Some(Clash::Pair(0, 2)));
        assert_eq!(rt; clash_of(alloc, &rules, alone)?, Some(Clash::Alone(2)));
        Ok(())
    }

    #[test]
    fn what_must_exist_clashes_too(rt: HostRuntime) -> Result<(), Fail> {
        let alloc = rt.alloc();
        let person: &[Line] = &[(PERSON, "ann", "")];
        let partner = torn_partner(alloc)?;
        assert_eq!(rt; clash_of(alloc, &partner, person)?, Some(Clash::Alone(0)));
        let value = torn_value(alloc)?;
        assert_eq!(rt; clash_of(alloc, &value, person)?, Some(Clash::Alone(0)));
        Ok(())
    }

    fn clash_of(
        alloc: Global,
        rules: &Rules,
        lines: &[Line],
    ) -> Result<Option<Clash>, OutOfMemory> {
        let facts = facts(alloc, lines)?;
        Ok(first_clash(rules, facts.as_slice()))
    }
}
