ghost use Rattle.std.specs.Prelude.{◌≡◌, ◌≤◌, ◌+◌, ◌*◌, ◌↔◌, ◌⊎◌, ◌∷◌, [], IfOk, Contains, length};
ghost use Rattle.dl_base.specs.Clash.{HasClash};
ghost use Rattle.dl_base.specs.Ontologies.{Knows};
ghost use Rattle.dl_base.specs.Picks.{Collects, Picks};
ghost use Rattle.dl_base.specs.Updates.{IsWellFormed, Meets};
ghost use Rattle.dl_base.specs.declared.statements.Fact as fact_type;
ghost use Rattle.update_engine.specs.Stepping.{FollowsFrom};

use crate::meeting::meets;
use crate::rules::Rules;
use dl_base::{Fact, FactSet, OutOfMemory, Steps};
use std::alloc::Global;
use std::sync::ledger::Ledger;

/// The facts that meet the request.
pub fn meeting(
    alloc: Global,
    rules: &Rules,
    inserts: &[Fact],
    deletes: &[Fact],
    facts: &[Fact],
) -> Result<Vec<Fact>, OutOfMemory>
    requires well { IsWellFormed rules.now.axioms inserts.now deletes.now }
    requires alone { (f : fact_type.Fact) → Contains facts.now f → ¬ HasClash rules.now.axioms (f ∷ []) }
    ensures { IfOk result (λ picked. Picks (Meets rules.now.axioms inserts.now deletes.now) facts.now picked.items) }
{
    let mut picked = Vec::new(alloc);
    for fact in facts {
        if meets(rules, inserts, deletes, fact) {
            picked.push(fact.copy(alloc)?)?;
        }
    }
    Ok(picked)
}

/// The facts that don't.
pub fn staying(
    alloc: Global,
    rules: &Rules,
    inserts: &[Fact],
    deletes: &[Fact],
    facts: &[Fact],
) -> Result<Vec<Fact>, OutOfMemory>
    requires well { IsWellFormed rules.now.axioms inserts.now deletes.now }
    requires alone { (f : fact_type.Fact) → Contains facts.now f → ¬ HasClash rules.now.axioms (f ∷ []) }
    ensures { IfOk result (λ picked. Picks (λ f. ¬ Meets rules.now.axioms inserts.now deletes.now f) facts.now picked.items) }
{
    let mut picked = Vec::new(alloc);
    for fact in facts {
        if !meets(rules, inserts, deletes, fact) {
            picked.push(fact.copy(alloc)?)?;
        }
    }
    Ok(picked)
}

/// The facts that the set doesn't have. One step for each of the facts.
pub fn unheld<S: FactSet, L: Ledger>(
    alloc: Global,
    set: &S,
    facts: &[Fact],
    steps: &mut Steps<L>,
) -> Result<Vec<Fact>, OutOfMemory>
    ensures picked { IfOk result (λ picked. Picks (λ f. ¬ Contains (S.facts set.now) f) facts.now picked.items) }
    ensures counted { steps.new ≤ steps.old + length facts.now }
{
    let mut picked = Vec::new(alloc);
    for fact in facts {
        if !set.has(fact, steps) {
            picked.push(fact.copy(alloc)?)?;
        }
    }
    Ok(picked)
}

/// What the removed facts entail.
pub fn followers(alloc: Global, rules: &Rules, removed: &[Fact]) -> Result<Vec<Fact>, OutOfMemory>
    requires { (f : fact_type.Fact) → Contains removed.now f → Knows rules.now f }
    ensures follows { IfOk result (λ facts. Collects (FollowsFrom rules.now.axioms removed.now) (length removed.now) facts.items) }
    ensures few { IfOk result (λ facts. length facts.items ≤ 2 * length rules.now.terms * length removed.now) }
{
    let mut facts = Vec::new(alloc);
    for fact in removed {
        facts.append(&mut rules.follows(alloc, fact)?)?;
    }
    Ok(facts)
}

/// The facts with copies of others.
pub fn with_copies(
    alloc: Global,
    others: &[Fact],
    mut facts: Vec<Fact>,
) -> Result<Vec<Fact>, OutOfMemory>
    ensures { IfOk result (λ all. (f : fact_type.Fact) → Contains all.items f ↔ (Contains facts.items f ⊎ Contains others.now f)) }
{
    for fact in others {
        facts.push(fact.copy(alloc)?)?;
    }
    Ok(facts)
}
