//! Facts found by several patterns.
ghost use Rattle.std.specs.Prelude.{◌≡◌};

use crate::found;
use dl_base::{Fact, FactSet, Name, OutOfMemory, Pattern, PlainSet, Steps, Term};
use std::alloc::Global;
use std::marker::Brand;
use std::sync::ledger::{Blank, Ledger};
use std::test::Fail;

fn name(alloc: Global, text: &str) -> Result<Name, OutOfMemory> {
    Name::of(alloc, text.as_bytes())
}

/// Four role facts of role 1, and a class fact of class 0.
fn stored(alloc: Global) -> Result<Vec<Fact>, OutOfMemory> {
    let mut facts = Vec::new(alloc);
    for (a, b) in [("a", "b"), ("a", "c"), ("b", "c"), ("c", "a")] {
        facts.push(Fact::Role(Term(1), name(alloc, a)?, name(alloc, b)?))?;
    }
    facts.push(Fact::Class(Term(0), name(alloc, "a")?))?;
    Ok(facts)
}

/// The facts found, those of class facts as their subject and those of role facts as their two names.
fn texts<S: FactSet, L: Ledger>(
    alloc: Global,
    patterns: &[Pattern],
    set: &S,
    blank: Blank,
) -> Result<Vec<Fact>, OutOfMemory>
    requires name { blank.name ≡ L.name }
    requires parts { blank.parts ≡ L.parts }
    requires one { blank.parts ≡ 1 }
{
    let mut steps: Steps<L> = Steps::new(blank);
    found(alloc, patterns, set, &mut steps)
}

fn found_in(alloc: Global, patterns: &[Pattern]) -> Result<Vec<Fact>, OutOfMemory> {
    let set = PlainSet::of(alloc, stored(alloc)?)?;
    texts::<PlainSet, Brand>(alloc, patterns, &set, Blank::new(1))
}

// A fact that two patterns ask for is found once.
#[test]
fn facts_of_several_patterns_are_found_once_and_in_order(rt: HostRuntime) -> Result<(), Fail> {
    let alloc = rt.alloc();
    let patterns = vec![in alloc;
        Pattern::RoleTo(Term(1), name(alloc, "c")?),
        Pattern::RoleFrom(Term(1), name(alloc, "a")?),
        Pattern::Class(Term(0)),
        Pattern::Class(Term(2)),
    ]?;
    let found = found_in(alloc, patterns.as_slice())?;
    let mut wanted = stored(alloc)?;
    wanted.truncate(3);
    wanted.insert(0, Fact::Class(Term(0), name(alloc, "a")?))?;
    assert!(rt; found.as_slice() == wanted.as_slice(), "{found:?}");
    Ok(())
}
