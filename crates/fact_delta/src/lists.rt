ghost use Rattle.std.specs.Prelude.{◌↔◌, IsTrue, IfOk, Contains};
ghost use Rattle.dl_base.specs.FactOrder.{AreSorted};
ghost use Rattle.dl_base.specs.Picks.{Picks};
ghost use Rattle.dl_base.specs.Updates.{Lists};
ghost use Rattle.fact_delta.specs.Deltas.{IsExchanged, AreMarked};

use dl_base::{Changed, Fact, OutOfMemory, sorted_once};
use std::alloc::Global;

/// Whether the fact is among sorted facts. It takes no memory.
pub fn is_in_order(facts: &[Fact], fact: &Fact) -> bool
    requires { AreSorted facts.now }
    ensures { IsTrue result ↔ Contains facts.now fact.now }
{
    facts.binary_search(fact).is_ok()
}

/// Copies of the facts that aren't among the others, which are sorted.
pub fn absent(alloc: Global, facts: &[Fact], others: &[Fact]) -> Result<Vec<Fact>, OutOfMemory>
    requires { AreSorted others.now }
    ensures { IfOk result (λ absent. Picks (λ f. ¬ Contains others.now f) facts.now absent.items) }
{
    let mut absent = Vec::new(alloc);
    for fact in facts {
        if !is_in_order(others, fact) {
            absent.push(fact.copy(alloc)?)?;
        }
    }
    Ok(absent)
}

/// The facts held that aren't among `less`, and those of `more` that aren't among `but`, in order.
pub fn exchanged(
    alloc: Global,
    held: &[Fact],
    less: &[Fact],
    more: &[Fact],
    but: &[Fact],
) -> Result<Vec<Fact>, OutOfMemory>
    requires less { AreSorted less.now }
    requires but { AreSorted but.now }
    ensures { IfOk result (λ facts. Lists (IsExchanged held.now less.now more.now but.now) facts.items) }
{
    let mut facts = absent(alloc, held, less)?;
    facts.append(&mut absent(alloc, more, but)?)?;
    let facts = sorted_once(facts)?;
    Ok(facts)
}

/// The facts that the changes mark so, in order.
pub fn marked(alloc: Global, changed: &[Changed], mark: bool) -> Result<Vec<Fact>, OutOfMemory>
    ensures marked { IfOk result (λ facts. AreMarked changed.now mark facts.items) }
    ensures sorted { IfOk result (λ facts. AreSorted facts.items) }
{
    let facts = all_marked(alloc, changed, mark)?;
    let facts = sorted_once(facts)?;
    Ok(facts)
}

fn all_marked(alloc: Global, changed: &[Changed], mark: bool) -> Result<Vec<Fact>, OutOfMemory>
    ensures { IfOk result (λ facts. AreMarked changed.now mark facts.items) }
{
    let mut facts = Vec::new(alloc);
    for change in changed {
        if change.added == mark {
            facts.push(change.fact.copy(alloc)?)?;
        }
    }
    Ok(facts)
}
