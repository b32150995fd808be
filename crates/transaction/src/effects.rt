ghost use Rattle.std.specs.Prelude.{◌≡◌, ◌↔◌, ◌⊎◌, List, Contains, IfOk, IfErr};
ghost use Rattle.dl_base.specs.Clash.{IsConsistent};
ghost use Rattle.dl_base.specs.FactOrder.{AreSorted};
ghost use Rattle.dl_base.specs.Ontologies.{Knows};
ghost use Rattle.dl_base.specs.Updates.{Lists};
ghost use Rattle.dl_base.specs.declared.statements.Fact as fact_type;
ghost use Rattle.fact_delta.specs.Deltas.{standing, Fits, IsApplied, IsOver, moved_over};
ghost use Rattle.transaction.specs.Effects.{IsEffect, IsMade, IsReplaced};
ghost use Rattle.update_engine.specs.Stepping.{IsStep, IsRefusal};

use dl_base::{Fact, OutOfMemory, Steps, Versions, copies_of, sorted_once};
use fact_delta::{Delta, Moved, absent};
use std::alloc::Global;
use std::marker::Brand;
use std::sync::ledger::{Blank, Ledger};
use update_engine::{Rules, Step, StepRefusal, step};

/// What a change makes of a transaction: the facts put and taken for good so far, what came to the base and what went from it, and what
/// is lost.
#[derive(Drop)]
pub struct Effect {
    pub put: Vec<Fact>,
    pub taken: Vec<Fact>,
    pub moved: Moved,
    pub lost: Vec<Fact>,
}

/// The effect of the change on the stored facts, and on the facts put and taken so far; or where the change contradicts itself.
pub fn effect_of<V: Versions + Drop>(
    alloc: Global,
    rules: &Rules,
    stored: &Delta<V>,
    put: &[Fact],
    taken: &[Fact],
    inserts: &[Fact],
    deletes: &[Fact],
) -> Result<Effect, StepRefusal>
    requires consistent { IsConsistent rules.now.axioms (standing stored.now) }
    requires known { (f : fact_type.Fact) → Contains (standing stored.now) f → Knows rules.now f }
    ensures ok { IfOk result (IsEffect rules.now.axioms stored.now put.now taken.now inserts.now deletes.now) }
    ensures refused { IfErr result (IsRefusal rules.now.axioms inserts.now deletes.now) }
{
    let step = stepped::<V, Brand>(alloc, rules, stored, inserts, deletes, Blank::new(1))?;
    let Ok(effect) = made(alloc, stored, put, taken, step) else {
        return Err(StepRefusal::OutOfMemory);
    };
    Ok(effect)
}

/// A step whose look-ups nobody counts.
fn stepped<V: Versions + Drop, L: Ledger>(
    alloc: Global,
    rules: &Rules,
    stored: &Delta<V>,
    inserts: &[Fact],
    deletes: &[Fact],
    blank: Blank,
) -> Result<Step, StepRefusal>
    requires name { blank.name ≡ L.name }
    requires parts { blank.parts ≡ L.parts }
    requires one { blank.parts ≡ 1 }
    requires consistent { IsConsistent rules.now.axioms (standing stored.now) }
    requires known { (f : fact_type.Fact) → Contains (standing stored.now) f → Knows rules.now f }
    ensures ok { IfOk result (IsStep rules.now.axioms (standing stored.now) inserts.now deletes.now) }
    ensures refused { IfErr result (IsRefusal rules.now.axioms inserts.now deletes.now) }
{
    let mut steps: Steps<L> = Steps::new(blank);
    step(alloc, rules, stored, inserts, deletes, &mut steps)
}

/// What the step makes of the stored facts and of those put and taken.
fn made<V: Versions + Drop>(
    alloc: Global,
    stored: &Delta<V>,
    put: &[Fact],
    taken: &[Fact],
    step: Step,
) -> Result<Effect, OutOfMemory>
    requires removed { AreSorted step.removed.items }
    requires put { AreSorted step.put.items }
    requires added { AreSorted step.added.items }
    requires fits { Fits (standing stored.now) step.removed.items step.added.items }
    ensures { IfOk result (IsMade stored.now put.now taken.now step) }
{
    let put = replaced(alloc, put, step.removed.as_slice(), step.put.as_slice())?;
    let taken = replaced(alloc, taken, step.put.as_slice(), step.removed.as_slice())?;
    let moved = stored.moved(step.removed.as_slice(), step.added.as_slice())?;
    Ok(Effect {
        put,
        taken,
        moved,
        lost: lost_of(step),
    })
}

/// What the step loses.
fn lost_of(step: Step) -> Vec<Fact>
    ensures { result.items ≡ step.lost.items }
{
    let Step {
        removed: _removed,
        put: _put,
        added: _added,
        lost,
    } = step;
    lost
}

/// The facts held that don't go, and those that come, in order.
fn replaced(
    alloc: Global,
    held: &[Fact],
    go: &[Fact],
    come: &[Fact],
) -> Result<Vec<Fact>, OutOfMemory>
    requires { AreSorted go.now }
    ensures { IfOk result (λ facts. Lists (IsReplaced held.now (Contains go.now) (Contains come.now)) facts.items) }
{
    let mut facts = absent(alloc, held, go)?;
    facts.append(&mut copies_of(alloc, come)?)?;
    let facts = sorted_once(facts)?;
    Ok(facts)
}
