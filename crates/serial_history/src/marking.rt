ghost use Rattle.std.specs.Prelude.{Contains, IfOk};
ghost use Rattle.dl_base.specs.declared.statements.Fact as fact_type;
ghost use Rattle.dl_base.specs.FactOrder.{AreSorted};
ghost use Rattle.serial_history.specs.Marks.{IsMarked, Marks};

use dl_base::{Changed, Changes, Fact, OutOfMemory, copies_of, sorted_once};
use fact_delta::is_in_order;
use std::alloc::Global;

/// The facts that go, marked as removed, and those that come, marked as added, in the order of facts.
pub fn marked(alloc: Global, gone: &[Fact], come: &[Fact]) -> Result<Changes, OutOfMemory>
    requires sorted { AreSorted gone.now }
    requires apart { (f : fact_type.Fact) → Contains gone.now f → ¬ Contains come.now f }
    ensures { IfOk result (IsMarked gone.now come.now) }
{
    let mut facts = copies_of(alloc, gone)?;
    facts.append(&mut copies_of(alloc, come)?)?;
    let facts = sorted_once(facts)?;
    mark(alloc, gone, facts.as_slice())
}

/// Each fact, marked as removed where it is among the removed ones, and else as added.
fn mark(alloc: Global, gone: &[Fact], facts: &[Fact]) -> Result<Changes, OutOfMemory>
    requires { AreSorted gone.now }
    ensures { IfOk result (Marks gone.now facts.now) }
{
    let mut changed = Vec::new(alloc);
    for fact in facts {
        changed.push(Changed {
            fact: fact.copy(alloc)?,
            added: !is_in_order(gone, fact),
        })?;
    }
    Ok(Changes::of(changed))
}
