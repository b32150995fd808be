ghost use Rattle.std.specs.Prelude.{◌≤◌, ◌+◌, List, IfOk, IfErr, Contains, length};
ghost use Rattle.dl_base.specs.Clash.{IsConsistent};
ghost use Rattle.dl_base.specs.Ontologies.{Knows};
ghost use Rattle.dl_base.specs.Updates.{IsWellFormed, IsRemoved, Lists};
ghost use Rattle.dl_base.specs.declared.statements.Fact as fact_type;
ghost use Rattle.update_engine.specs.Counting.{most_steps};
ghost use Rattle.update_engine.specs.Stepping.{IsStep, IsRefusal};

use crate::answers::{Step, StepRefusal};
use crate::judging::judge;
use crate::lookups::meeting_facts;
use crate::picking::{followers, meeting, staying, unheld, with_copies};
use crate::rules::Rules;
use dl_base::{Fact, FactSet, OutOfMemory, Steps, sorted_once};
use std::alloc::Global;
use std::sync::ledger::Ledger;

/// The step of a request, or where it contradicts itself. With `n` terms, `r` facts in the request and `m` facts of the set that meet it,
/// it takes at most `8*n*(r+m) + 8*r*m + r` steps on the set, whatever it answers.
pub fn step<S: FactSet, L: Ledger>(
    alloc: Global,
    rules: &Rules,
    set: &S,
    inserts: &[Fact],
    deletes: &[Fact],
    steps: &mut Steps<L>,
) -> Result<Step, StepRefusal>
    requires consistent { IsConsistent rules.now.axioms (S.facts set.now) }
    requires known { (f : fact_type.Fact) → Contains (S.facts set.now) f → Knows rules.now f }
    ensures ok { IfOk result (IsStep rules.now.axioms (S.facts set.now) inserts.now deletes.now) }
    ensures refused { IfErr result (IsRefusal rules.now.axioms inserts.now deletes.now) }
    ensures counted { (met : List fact_type.Fact) → Lists (IsRemoved rules.now.axioms (S.facts set.now) inserts.now deletes.now) met
        → steps.new ≤ steps.old + most_steps (length rules.now.terms) (length inserts.now + length deletes.now) (length met) }
{
    if let Err(refusal) = judge(rules, inserts, deletes) {
        return Err(StepRefusal::IllFormed(refusal));
    }
    let step = take_step(alloc, rules, set, inserts, deletes, steps)?;
    Ok(step)
}

/// The step of a well-formed request.
fn take_step<S: FactSet, L: Ledger>(
    alloc: Global,
    rules: &Rules,
    set: &S,
    inserts: &[Fact],
    deletes: &[Fact],
    steps: &mut Steps<L>,
) -> Result<Step, OutOfMemory>
    requires well { IsWellFormed rules.now.axioms inserts.now deletes.now }
    requires consistent { IsConsistent rules.now.axioms (S.facts set.now) }
    requires known { (f : fact_type.Fact) → Contains (S.facts set.now) f → Knows rules.now f }
    ensures ok { IfOk result (IsStep rules.now.axioms (S.facts set.now) inserts.now deletes.now) }
    ensures counted { (met : List fact_type.Fact) → Lists (IsRemoved rules.now.axioms (S.facts set.now) inserts.now deletes.now) met
        → steps.new ≤ steps.old + most_steps (length rules.now.terms) (length inserts.now + length deletes.now) (length met) }
{
    let removed = meeting_facts(alloc, rules, set, inserts, deletes, steps)?;
    let entailed = sorted_once(followers(alloc, rules, removed.as_slice())?)?;
    let lost = meeting(alloc, rules, inserts, deletes, entailed.as_slice())?;
    let survivors = staying(alloc, rules, inserts, deletes, entailed.as_slice())?;
    let put = sorted_once(with_copies(alloc, inserts, survivors)?)?;
    let added = unheld(alloc, set, put.as_slice(), steps)?;
    Ok(Step {
        removed,
        put,
        added,
        lost,
    })
}
