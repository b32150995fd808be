ghost use Rattle.std.specs.Prelude.{List, IfOk};
ghost use Rattle.dl_base.specs.Updates.{Lists};
ghost use Rattle.dl_base.specs.declared.statements.Fact as fact_type;
ghost use Rattle.guard_eval.specs.Finding.{AreFound, CountsFinds, IsFound};

use dl_base::{Fact, FactSet, OutOfMemory, Pattern, Steps, sorted_once};
use std::alloc::Global;
use std::sync::ledger::Ledger;

/// The facts of the set that match one of the patterns, in order. One look-up for each pattern, and nothing else of the set.
pub fn found<S: FactSet, L: Ledger>(
    alloc: Global,
    patterns: &[Pattern],
    set: &S,
    steps: &mut Steps<L>,
) -> Result<Vec<Fact>, OutOfMemory>
    ensures found { IfOk result (λ facts. Lists (IsFound patterns.now (S.facts set.now)) facts.items) }
    ensures counted { (facts : List fact_type.Fact) → Lists (IsFound patterns.now (S.facts set.now)) facts → CountsFinds patterns.now facts steps.old steps.new }
{
    let facts = find_all(alloc, patterns, set, steps)?;
    let ordered = sorted_once(facts)?;
    Ok(ordered)
}

/// The facts that match one of the patterns, those of each pattern behind the others.
fn find_all<S: FactSet, L: Ledger>(
    alloc: Global,
    patterns: &[Pattern],
    set: &S,
    steps: &mut Steps<L>,
) -> Result<Vec<Fact>, OutOfMemory>
    ensures found { IfOk result (λ facts. AreFound patterns.now (S.facts set.now) facts.items) }
    ensures counted { (facts : List fact_type.Fact) → Lists (IsFound patterns.now (S.facts set.now)) facts → CountsFinds patterns.now facts steps.old steps.new }
{
    let mut facts = Vec::new(alloc);
    for pattern in patterns {
        let mut more = set.find(alloc, pattern, steps)?;
        facts.append(&mut more)?;
    }
    Ok(facts)
}
