ghost use Rattle.std.specs.Prelude.{◌↔◌, Contains, IsTrue, IfOk};
ghost use Rattle.dl_base.specs.Picks.{Picks};
ghost use Rattle.dl_base.specs.Changing.{removed, Brings};

use crate::memory::OutOfMemory;
use crate::requests::Changed;
use crate::statements::Fact;
use std::alloc::Global;

/// Whether the changes remove the fact.
fn is_removed(changed: &[Changed], fact: &Fact) -> bool
    ensures { IsTrue result ↔ Contains changed.now (removed fact.now) }
{
    for change in changed {
        if !change.added && change.fact.is(fact) {
            return true;
        }
    }
    false
}

/// Copies of the facts that the changes don't remove, in their order.
pub fn unremoved(
    alloc: Global,
    facts: &[Fact],
    changed: &[Changed],
) -> Result<Vec<Fact>, OutOfMemory>
    ensures { IfOk result (λ left. Picks (λ f. ¬ Contains changed.now (removed f)) facts.now left.items) }
{
    let mut left = Vec::new(alloc);
    for fact in facts {
        if !is_removed(changed, fact) {
            left.push(fact.copy(alloc)?)?;
        }
    }
    Ok(left)
}

/// Copies of the added facts.
pub fn added_facts(alloc: Global, changed: &[Changed]) -> Result<Vec<Fact>, OutOfMemory>
    ensures { IfOk result (λ facts. Brings changed.now facts.items) }
{
    let mut facts = Vec::new(alloc);
    for change in changed {
        if change.added {
            facts.push(change.fact.copy(alloc)?)?;
        }
    }
    Ok(facts)
}
