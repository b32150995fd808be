ghost use Rattle.std.specs.Prelude.{◌≡◌, IsTrue, Contains};
ghost use Rattle.dl_base.specs.Clash.{IsConsistent};
ghost use Rattle.dl_base.specs.Ontologies.{Knows};
ghost use Rattle.dl_base.specs.declared.statements.Fact as fact_type;

use crate::trouble::Trouble;
use dl_base::{
    Changed, Fact, FactSet, OutOfMemory, PlainSet, Request, Steps, copies_of, is_among, sorted_once,
};
use instance_query::answers;
use std::alloc::Global;
use std::marker::Brand;
use std::sync::ledger::{Blank, Ledger};
use update_engine::{IllFormed, Rules, StepRefusal, first_clash, step, stored_after};

/// What a request is told over some facts, and what stands after it.
#[derive(Drop)]
pub struct Made {
    pub told: Vec<Fact>,
    pub taken: Vec<Fact>,
    pub facts: Vec<Fact>,
}

/// Whether the rules know the facts, and these are consistent.
fn are_fit(rules: &Rules, facts: &[Fact]) -> bool
    ensures known { IsTrue result → (f : fact_type.Fact) → Contains facts.now f → Knows rules.now f }
    ensures consistent { IsTrue result → IsConsistent rules.now.axioms facts.now }
{
    if let Some(_) = first_clash(rules, facts) {
        return false;
    }
    rules.knows_all(facts)
}

/// Serves the request over the facts, by themselves. A change that contradicts itself is named.
pub fn served(
    alloc: Global,
    rules: &Rules,
    facts: &[Fact],
    request: &Request,
) -> Result<Result<Made, IllFormed>, Trouble> {
    let set = PlainSet::of(alloc, copies_of(alloc, facts)?)?;
    if !are_fit(rules, set.as_slice()) {
        return Err(Trouble::Unfit);
    }
    serve::<Brand>(alloc, rules, &set, request, Blank::new(1))
}

fn serve<L: Ledger>(
    alloc: Global,
    rules: &Rules,
    set: &PlainSet,
    request: &Request,
    blank: Blank,
) -> Result<Result<Made, IllFormed>, Trouble>
    requires name { blank.name ≡ L.name }
    requires parts { blank.parts ≡ L.parts }
    requires one { blank.parts ≡ 1 }
    requires consistent { IsConsistent rules.now.axioms set.now }
    requires known { (f : fact_type.Fact) → Contains set.now f → Knows rules.now f }
{
    let mut steps: Steps<L> = Steps::new(blank);
    match request {
        Request::Ask(pattern) => {
            let told = answers(alloc, rules.entailers(), set, pattern, &mut steps)?;
            let facts = copies_of(alloc, set.as_slice())?;
            Ok(Ok(Made {
                told,
                taken: Vec::new(alloc),
                facts,
            }))
        }
        Request::Change { inserts, deletes } => {
            match step(
                alloc,
                rules,
                set,
                inserts.as_slice(),
                deletes.as_slice(),
                &mut steps,
            ) {
                Ok(made) => {
                    let facts = stored_after(alloc, set.as_slice(), &made)?;
                    Ok(Ok(Made {
                        told: made.lost,
                        taken: made.removed,
                        facts,
                    }))
                }
                Err(StepRefusal::IllFormed(name)) => Ok(Err(name)),
                Err(StepRefusal::OutOfMemory) => Err(Trouble::OutOfMemory),
            }
        }
    }
}

/// Whether the fact, standing alone, is taken by the change, or gives the ask an answer.
pub fn is_met(
    alloc: Global,
    rules: &Rules,
    request: &Request,
    fact: &Fact,
) -> Result<bool, Trouble> {
    let mut alone = Vec::new(alloc);
    if alone.push(fact.copy(alloc)?).is_err() {
        return Err(Trouble::OutOfMemory);
    }
    match served(alloc, rules, alone.as_slice(), request)? {
        Ok(served) => match request {
            Request::Ask(_) => Ok(served.told.len() > 0),
            Request::Change { .. } => Ok(served.taken.len() > 0),
        },
        Err(_) => Err(Trouble::Unfit),
    }
}

/// The facts that stand in one of the lists alone, marked, in order.
pub fn difference(alloc: Global, old: &[Fact], new: &[Fact]) -> Result<Vec<Changed>, OutOfMemory> {
    let mut all = copies_of(alloc, old)?;
    all.append(&mut copies_of(alloc, new)?)?;
    let all = sorted_once(all)?;
    let mut changed = Vec::new(alloc);
    for fact in all.as_slice() {
        let added = is_among(new, fact);
        if is_among(old, fact) != added {
            changed.push(Changed {
                fact: fact.copy(alloc)?,
                added,
            })?;
        }
    }
    Ok(changed)
}
