ghost use Rattle.std.specs.Prelude.{List, IfOk};
ghost use Rattle.dl_base.specs.FactOrder.{AreSorted};
ghost use Rattle.dl_base.specs.Updates.{Lists, IsStored};
ghost use Rattle.dl_base.specs.declared.axioms.Axiom as axiom_type;
ghost use Rattle.dl_base.specs.declared.statements.Fact as fact_type;
ghost use Rattle.update_engine.specs.Stepping.{IsStep};

use crate::answers::Step;
use crate::picking::with_copies;
use dl_base::{Fact, OutOfMemory, sorted_once};
use fact_delta::absent;
use std::alloc::Global;

/// The facts that are stored after the step of a request from these facts, in order: those that the step doesn't remove, and those that
/// it adds.
pub fn stored_after(alloc: Global, facts: &[Fact], step: &Step) -> Result<Vec<Fact>, OutOfMemory>
    requires { AreSorted step.now.removed.items }
    ensures { (axioms : List axiom_type.Axiom) (inserts deletes : List fact_type.Fact) → IsStep axioms facts.now inserts deletes step.now
        → IfOk result (λ stored. Lists (IsStored axioms facts.now inserts deletes) stored.items) }
{
    let kept = absent(alloc, facts, step.removed.as_slice())?;
    let stored = with_copies(alloc, step.added.as_slice(), kept)?;
    Ok(sorted_once(stored)?)
}

#[cfg(test)]
mod tests {
    use super::*;
    use crate::answers::StepRefusal;
    use crate::judging::IllFormed;
    use crate::rules::Rules;
    use crate::university::{
        BADGE, COURSE, HEAD_OF, Line, MENTORS, PERSON, PROF, STAFF, STUDENT, TEACHES, answer, are,
        chosen_partner, torn_partner, torn_value, university,
    };
    use std::process::Abort;
    use std::test::Fail;

    /// What is stored, inserted and deleted; and then what is put, what of it is added, what is lost, and what is stored afterwards.
    #[derive(Clone, Copy)]
    struct Row<'a> {
        stored: &'a [Line],
        inserts: &'a [Line],
        deletes: &'a [Line],
        put: &'a [Line],
        added: &'a [Line],
        lost: &'a [Line],
        after: &'a [Line],
    }

    #[test]
    fn a_deletion_leaves_what_it_can(rt: HostRuntime) -> Result<(), Fail> {
        let alloc = rt.alloc();
        let rules = university(alloc)?;
        let prof: &[Line] = &[(PROF, "ann", "")];
        let above: &[Line] = &[(PERSON, "ann", ""), (STAFF, "ann", "")];
        let of_class = Row {
            stored: prof,
            inserts: &[],
            deletes: prof,
            put: above,
            added: above,
            lost: prof,
            after: above,
        };
        holds(&rt, alloc, &rules, of_class)?;
        let left: &[Line] = &[(PERSON, "ann", ""), (STAFF, "ann", ""), (COURSE, "cs1", "")];
        let of_entailed = Row {
            stored: &[(TEACHES, "ann", "cs1")],
            inserts: &[],
            deletes: prof,
            put: left,
            added: left,
            lost: &[(PROF, "ann", ""), (TEACHES, "ann", "cs1")],
            after: left,
        };
        holds(&rt, alloc, &rules, of_entailed)?;
        Ok(())
    }

    #[test]
    fn an_insertion_takes_what_clashes_with_it(rt: HostRuntime) -> Result<(), Fail> {
        let alloc = rt.alloc();
        let rules = university(alloc)?;
        let student: &[Line] = &[(PERSON, "ann", ""), (STUDENT, "ann", "")];
        let of_class = Row {
            stored: &[(PROF, "ann", "")],
            inserts: &[(STUDENT, "ann", "")],
            deletes: &[],
            put: student,
            added: student,
            lost: &[(STAFF, "ann", ""), (PROF, "ann", "")],
            after: student,
        };
        holds(&rt, alloc, &rules, of_class)?;
        let other: &[Line] = &[(HEAD_OF, "ann", "d2")];
        let of_functional_role = Row {
            stored: &[(HEAD_OF, "ann", "d1")],
            inserts: other,
            deletes: &[],
            put: other,
            added: other,
            lost: &[(HEAD_OF, "ann", "d1")],
            after: other,
        };
        holds(&rt, alloc, &rules, of_functional_role)?;
        Ok(())
    }

    // A survivor that the set holds already is put, and not added.
    #[test]
    fn what_survives_may_be_held(rt: HostRuntime) -> Result<(), Fail> {
        let alloc = rt.alloc();
        let rules = university(alloc)?;
        let left: &[Line] = &[(PERSON, "ann", ""), (STAFF, "ann", ""), (COURSE, "cs1", "")];
        let of_entailed = Row {
            stored: &[(PERSON, "ann", ""), (TEACHES, "ann", "cs1")],
            inserts: &[],
            deletes: &[(PROF, "ann", "")],
            put: left,
            added: &[(STAFF, "ann", ""), (COURSE, "cs1", "")],
            lost: &[(PROF, "ann", ""), (TEACHES, "ann", "cs1")],
            after: left,
        };
        holds(&rt, alloc, &rules, of_entailed)?;
        Ok(())
    }

    #[test]
    fn what_is_held_already_is_put_and_changes_nothing(rt: HostRuntime) -> Result<(), Fail> {
        let alloc = rt.alloc();
        let rules = university(alloc)?;
        let badge: &[Line] = &[(BADGE, "ann", "7")];
        let prof: &[Line] = &[(PROF, "ann", "")];
        let student: &[Line] = &[(STUDENT, "ann", "")];
        let nothing: &[Line] = &[];
        for (held, deletes) in [(badge, nothing), (prof, student)] {
            let row = Row {
                stored: held,
                inserts: held,
                deletes,
                put: held,
                added: &[],
                lost: &[],
                after: held,
            };
            holds(&rt, alloc, &rules, row)?;
        }
        Ok(())
    }

    // A partner that only has to exist is no fact: nothing but the insertion is stored.
    #[test]
    fn what_an_insertion_needs_is_not_stored(rt: HostRuntime) -> Result<(), Fail> {
        let alloc = rt.alloc();
        let rules = chosen_partner(alloc)?;
        let person: &[Line] = &[(PERSON, "ann", "")];
        let row = Row {
            stored: &[],
            inserts: person,
            deletes: &[],
            put: person,
            added: person,
            lost: &[],
            after: person,
        };
        holds(&rt, alloc, &rules, row)?;
        Ok(())
    }

    fn holds(rt: &impl Abort, alloc: Global, rules: &Rules, row: Row<'_>) -> Result<(), Fail> {
        let (made, after) = answer(rt, alloc, rules, row.stored, row.inserts, row.deletes)?;
        assert!(rt; are(alloc, made.put.as_slice(), row.put)?, "{:?}", made.put);
        assert!(rt;
            are(alloc, made.added.as_slice(), row.added)?,
            "{:?}",
            made.added
        );
        assert!(rt;
            are(alloc, made.lost.as_slice(), row.lost)?,
            "{:?}",
            made.lost
        );
        assert!(rt; are(alloc, after.as_slice(), row.after)?, "{after:?}");
        Ok(())
    }

    #[test]
    fn a_step_refuses_what_is_ill_formed(rt: HostRuntime) -> Result<(), Fail> {
        let alloc = rt.alloc();
        let rules = university(alloc)?;
        let nothing: &[Line] = &[];
        let heads: &[Line] = &[(HEAD_OF, "ann", "d1"), (HEAD_OF, "ann", "d2")];
        let prof: &[Line] = &[(PROF, "ann", "")];
        let person: &[Line] = &[(PERSON, "ann", "")];
        let mentor: &[Line] = &[(MENTORS, "ann", "ann")];
        let badge: &[Line] = &[(BADGE, "ann", "x")];
        for (inserts, deletes, want) in [
            (heads, nothing, IllFormed::Pair(0, 1)),
            (prof, person, IllFormed::Entails(0, 0)),
            (prof, prof, IllFormed::Entails(0, 0)),
            (mentor, nothing, IllFormed::Alone(0)),
            (badge, nothing, IllFormed::Alone(0)),
        ] {
            let refusal = answer(&rt, alloc, &rules, &[], inserts, deletes).err();
            assert_eq!(rt; refusal, Some(StepRefusal::IllFormed(want)));
        }
        Ok(())
    }

    #[test]
    fn a_step_refuses_what_needs_what_cannot_be(rt: HostRuntime) -> Result<(), Fail> {
        let alloc = rt.alloc();
        let person: &[Line] = &[(PERSON, "ann", "")];
        let want = Some(StepRefusal::IllFormed(IllFormed::Alone(0)));
        let partner = torn_partner(alloc)?;
        let value = torn_value(alloc)?;
        assert_eq!(rt; answer(&rt, alloc, &partner, &[], person, &[]).err(), want);
        assert_eq!(rt; answer(&rt, alloc, &value, &[], person, &[]).err(), want);
        Ok(())
    }
}
