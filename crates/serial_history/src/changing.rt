ghost use Rattle.std.specs.Prelude.{◌≡◌, Contains, IfOk};
ghost use Rattle.dl_base.specs.FactOrder.{AreSorted};
ghost use Rattle.dl_base.specs.Picks.{Picks};
ghost use Rattle.serial_history.specs.Changing.{IsHeldAs, IsUpdate};

use crate::marking::marked;
use dl_base::{Changes, Fact, OutOfMemory, Steps, Versions};
use read_patterns::Parts;
use std::alloc::Global;
use std::marker::Brand;
use std::sync::ledger::{Blank, Ledger};

/// What parts change of a version: the changed facts, and the version after them.
#[derive(Drop)]
pub struct Update<V: Versions> {
    pub changed: Changes,
    pub next: V,
}

/// What the parts change of the version: the facts that they put and that it lacks come, and those that they take and that it holds go.
pub fn update_of<V: Versions>(
    alloc: Global,
    version: &V,
    parts: &Parts,
) -> Result<Update<V>, OutOfMemory>
    requires { AreSorted parts.now.removed.items }
    ensures { IfOk result (λ update. IsUpdate (V.facts version.now) (V.layers version.now) parts.now update.changed (V.facts update.next) (V.layers update.next)) }
{
    let come = held_as::<V, Brand>(alloc, version, parts.added.as_slice(), false, Blank::new(1))?;
    let gone = held_as::<V, Brand>(
        alloc,
        version,
        parts.removed.as_slice(),
        true,
        Blank::new(1),
    )?;
    let changed = marked(alloc, gone.as_slice(), come.as_slice())?;
    let next = version.with_change(alloc, changed.as_slice())?;
    Ok(Update { changed, next })
}

/// Copies of the facts that the version holds, or of those that it doesn't hold.
fn held_as<V: Versions, L: Ledger>(
    alloc: Global,
    version: &V,
    facts: &[Fact],
    held: bool,
    blank: Blank,
) -> Result<Vec<Fact>, OutOfMemory>
    requires name { blank.name ≡ L.name }
    requires parts { blank.parts ≡ L.parts }
    requires one { blank.parts ≡ 1 }
    ensures { IfOk result (λ picked. Picks (IsHeldAs held (V.facts version.now)) facts.now picked.items) }
{
    let mut steps: Steps<L> = Steps::new(blank);
    let mut picked = Vec::new(alloc);
    for fact in facts {
        if version.has(fact, &mut steps) == held {
            picked.push(fact.copy(alloc)?)?;
        }
    }
    Ok(picked)
}
