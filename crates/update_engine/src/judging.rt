ghost use Rattle.std.specs.Prelude.{◌≡◌, ℕ, None, OnOk, IfErr, IfSome, slice_get, Some, ◌∷◌, []};
ghost use Rattle.dl_base.specs.Clash.{IsConsistent};
ghost use Rattle.dl_base.specs.Derivation.{InClosure};
ghost use Rattle.dl_base.specs.IllFormed.{NamesEntails};
ghost use Rattle.dl_base.specs.Updates.{IsWellFormed};
ghost use Rattle.dl_base.specs.declared.statements.Fact as fact_type;
ghost use Rattle.update_engine.specs.Judging.{IsNamed, NoEntails, IsEntailed};

use crate::clashes::{Clash, first_clash};
use crate::rules::Rules;
use dl_base::Fact;

/// How a request contradicts itself: by an insertion alone, by two, or by an insertion and the deletion that it entails.
/// Places count from 0.
#[derive(Debug, Clone, Copy, PartialEq, Eq)]
pub enum IllFormed {
    Alone(usize),
    Pair(usize, usize),
    Entails(usize, usize),
}

/// Whether the request contradicts itself, and where first: the least insertion that clashes by itself, else the least two insertions
/// that clash, else the least insertion with the least deletion that it entails. It takes no memory.
pub fn judge(rules: &Rules, inserts: &[Fact], deletes: &[Fact]) -> Result<(), IllFormed>
    ensures ok { OnOk result (IsWellFormed rules.now.axioms inserts.now deletes.now) }
    ensures ill_formed { IfErr result (IsNamed rules.now.axioms inserts.now deletes.now) }
{
    match first_clash(rules, inserts) {
        Some(Clash::Alone(place)) => return Err(IllFormed::Alone(place)),
        Some(Clash::Pair(place, other)) => return Err(IllFormed::Pair(place, other)),
        None => {}
    }
    if let Some((place, deleted)) = first_entails(rules, inserts, deletes) {
        return Err(IllFormed::Entails(place, deleted));
    }
    Ok(())
}

/// The first insertion that entails a deletion, with the first that it entails.
fn first_entails(rules: &Rules, inserts: &[Fact], deletes: &[Fact]) -> Option<(usize, usize)>
    requires { IsConsistent rules.now.axioms inserts.now }
    ensures some { IfSome result (λ places. NamesEntails rules.now.axioms inserts.now deletes.now places.0 places.1) }
    ensures none { result ≡ None → NoEntails rules.now.axioms inserts.now deletes.now }
{
    for place in 0..inserts.len() {
        if let Some(deleted) = first_entailed(rules, &inserts[place], deletes) {
            return Some((place, deleted));
        }
    }
    None
}

/// The first deletion that the fact entails.
fn first_entailed(rules: &Rules, given: &Fact, deletes: &[Fact]) -> Option<usize>
    ensures some { IfSome result (IsEntailed rules.now.axioms deletes.now given.now) }
    ensures none { result ≡ None → (l : ℕ) → ¬ ((g : fact_type.Fact) × (slice_get deletes.now l ≡ Some g) × InClosure rules.now.axioms (given.now ∷ []) g) }
{
    for place in 0..deletes.len() {
        if rules.entails(given, &deletes[place]) {
            return Some(place);
        }
    }
    None
}

#[cfg(test)]
mod tests {
    use super::*;
    use crate::university::{
        BADGE, HEAD_OF, Line, MENTORS, PERSON, PROF, STAFF, STUDENT, facts, torn_partner,
        torn_value, university,
    };
    use dl_base::OutOfMemory;
    use std::alloc::Global;
    use std::test::Fail;

    #[test]
    fn a_request_that_contradicts_itself_is_named(rt: HostRuntime) -> Result<(), Fail> {
        let alloc = rt.alloc();
        let rules = university(alloc)?;
        let prof: &[Line] = &[(PROF, "ann", "")];
        let person: &[Line] = &[(PERSON, "ann", "")];
        let heads: &[Line] = &[(HEAD_OF, "ann", "d1"), (HEAD_OF, "ann", "d2")];
        let others: &[Line] = &[(PERSON, "bob", ""), (STUDENT, "cid", ""), (PROF, "ann", "")];
        let deleted: &[Line] = &[(PROF, "bob", ""), (STAFF, "ann", ""), (PERSON, "ann", "")];
        assert_eq!(rt; name_of(alloc, &rules, person, prof)?, None);
        assert_eq!(rt;
            name_of(alloc, &rules, heads, &[])?,
            Some(IllFormed::Pair(0, 1))
        );
        assert_eq!(rt;
            name_of(alloc, &rules, prof, person)?,
            Some(IllFormed::Entails(0, 0))
        );
        assert_eq!(rt;
            name_of(alloc, &rules, prof, prof)?,
            Some(IllFormed::Entails(0, 0))
        );
        assert_eq!(rt;
            name_of(alloc, &rules, others, deleted)?,
            Some(IllFormed::Entails(2, 1))
        );
        Ok(())
    }

    #[test]
    fn an_insertion_that_clashes_by_itself_is_named(rt: HostRuntime) -> Result<(), Fail> {
        let alloc = rt.alloc();
        let rules = university(alloc)?;
        let mentor: &[Line] = &[(MENTORS, "ann", "ann")];
        let badge: &[Line] = &[(BADGE, "ann", "x")];
        assert_eq!(rt;
            name_of(alloc, &rules, mentor, &[])?,
            Some(IllFormed::Alone(0))
        );
        assert_eq!(rt;
            name_of(alloc, &rules, badge, &[])?,
            Some(IllFormed::Alone(0))
        );
        Ok(())
    }

    // Who needs what can't be clashes alone: under each of the two ontologies a person can't be.
    #[test]
    fn an_insertion_that_needs_what_cannot_be_is_named(rt: HostRuntime) -> Result<(), Fail> {
        let alloc = rt.alloc();
        let person: &[Line] = &[(PERSON, "ann", "")];
        let partner = torn_partner(alloc)?;
        let value = torn_value(alloc)?;
        assert_eq!(rt;
            name_of(alloc, &partner, person, &[])?,
            Some(IllFormed::Alone(0))
        );
        assert_eq!(rt;
            name_of(alloc, &value, person, &[])?,
            Some(IllFormed::Alone(0))
        );
        Ok(())
    }

    fn name_of(
        alloc: Global,
        rules: &Rules,
        inserts: &[Line],
        deletes: &[Line],
    ) -> Result<Option<IllFormed>, OutOfMemory> {
        let inserts = facts(alloc, inserts)?;
        let deletes = facts(alloc, deletes)?;
        Ok(judge(rules, inserts.as_slice(), deletes.as_slice()).err())
    }
}
