ghost use Rattle.std.specs.Prelude.{◌≤◌, ◌+◌, ◌*◌, List, Contains, IfOk, length};
ghost use Rattle.dl_base.specs.Ontologies.{Knows};
ghost use Rattle.dl_base.specs.Updates.{Lists};
ghost use Rattle.dl_base.specs.declared.statements.Fact as fact_type;
ghost use Rattle.instance_query.specs.Answering.{FollowsFromOne, IsAnswer, MeetsAsk};

use dl_base::{Fact, FactSet, OutOfMemory, Pattern, Steps, matching, sorted_once};
use entail_guards::Entailers;
use guard_eval::found;
use std::alloc::Global;
use std::sync::ledger::Ledger;

/// The facts of the closure of the set that match the pattern, in order.
pub fn answers<S: FactSet, L: Ledger>(
    alloc: Global,
    entailers: &Entailers,
    set: &S,
    pattern: &Pattern,
    steps: &mut Steps<L>,
) -> Result<Vec<Fact>, OutOfMemory>
    requires { (f : fact_type.Fact) → Contains (S.facts set.now) f → Knows entailers.now f }
    ensures answers { IfOk result (λ answers. Lists (IsAnswer entailers.now.axioms (S.facts set.now) pattern.now) answers.items) }
    ensures counted { (met : List fact_type.Fact) → Lists (MeetsAsk entailers.now.axioms (S.facts set.now) pattern.now) met → steps.new ≤ steps.old + 2 * length entailers.now.terms + 2 * length met }
{
    let patterns = entailers.entailers(alloc, pattern)?;
    let met = found(alloc, patterns.as_slice(), set, steps)?;
    let entailed = followers(alloc, entailers, met.as_slice())?;
    let matched = matching(alloc, entailed.as_slice(), pattern)?;
    let answers = sorted_once(matched)?;
    Ok(answers)
}

/// What the facts entail, one by one.
fn followers(alloc: Global, entailers: &Entailers, facts: &[Fact]) -> Result<Vec<Fact>, OutOfMemory>
    requires { (f : fact_type.Fact) → Contains facts.now f → Knows entailers.now f }
    ensures { IfOk result (λ entailed. FollowsFromOne entailers.now.axioms facts.now entailed.items) }
{
    let mut entailed = Vec::new(alloc);
    for fact in facts {
        let mut more = entailers.follows(alloc, fact)?;
        entailed.append(&mut more)?;
    }
    Ok(entailed)
}
