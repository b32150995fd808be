ghost use Rattle.std.specs.Prelude.{◌≡◌, ◌↔◌, IfOk, List, Contains};
ghost use Rattle.dl_base.specs.declared.statements.Fact as fact_type;
ghost use Rattle.dl_base.specs.Repeats.{IsOnce};

use crate::memory::OutOfMemory;
use crate::statements::Fact;
use std::alloc::Global;
use std::collections::BTreeSet;

/// Copies of the facts in their order, repeats dropped.
pub fn once(alloc: Global, facts: &[Fact]) -> Result<Vec<Fact>, OutOfMemory>
    ensures once { IfOk result (λ kept. IsOnce facts.now kept.items) }
    ensures same { IfOk result (λ kept. (f : fact_type.Fact) → Contains kept.items f ↔ Contains facts.now f) }
{
    let mut seen = BTreeSet::new(alloc);
    let mut kept = Vec::new(alloc);
    for fact in facts {
        if seen.insert(fact.copy(alloc)?)? {
            kept.push(fact.copy(alloc)?)?;
        }
    }
    Ok(kept)
}

/// Repeats are dropped in one way.
pub fn once_is_one()
    ensures { (facts one other : List fact_type.Fact) → IsOnce facts one → IsOnce facts other → one ≡ other }
{}

#[cfg(test)]
mod tests {
    use super::*;
    use crate::names::Name;
    use crate::terms::Term;
    use std::test::Fail;

    #[test]
    fn repeats_are_dropped_where_they_stand_later(rt: HostRuntime) -> Result<(), Fail> {
        let alloc = rt.alloc();
        let mut facts = Vec::new(alloc);
        for (class, name) in [(2, b"b"), (1, b"a"), (2, b"b"), (1, b"b"), (1, b"a")] {
            facts.push(Fact::Class(Term(class), Name::of(alloc, name)?))?;
        }
        let kept = once(alloc, facts.as_slice())?;
        assert_eq!(rt; kept.len(), 3);
        for (place, first) in [(0, 0), (1, 1), (2, 3)] {
            let same = match (kept.get(place), facts.get(first)) {
                (Some(kept), Some(fact)) => kept.is(fact),
                _ => false,
            };
            assert!(rt; same);
        }
        Ok(())
    }
}
