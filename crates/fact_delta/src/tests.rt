//! A plain set with what came to it and what went from it.
ghost use Rattle.std.specs.Prelude.{◌≡◌, IsTrue, IfOk, Contains};
ghost use Rattle.dl_base.specs.FactOrder.{AreSorted};
ghost use Rattle.dl_base.specs.declared.statements.Fact as fact_type;
ghost use Rattle.fact_delta.specs.Deltas.{Fits, standing};

use crate::{Delta, marked};
use dl_base::{
    Changed, Fact, FactSet, Name, OutOfMemory, Pattern, PlainSet, Steps, Term, Versions, is_among,
    sorted_once,
};
use std::alloc::Global;
use std::marker::Brand;
use std::sync::ledger::{Blank, Ledger};
use std::test::Fail;

/// A fact: its term, its subject, and its object, which a class fact leaves empty. Term 0 is a class and 1 a role.
type Line = (u32, &'static str, &'static str);

const BASE: [Line; 4] = [(0, "a", ""), (0, "b", ""), (1, "a", "b"), (1, "a", "c")];

fn name(alloc: Global, text: &str) -> Result<Name, OutOfMemory> {
    Name::of(alloc, text.as_bytes())
}

fn fact(alloc: Global, line: Line) -> Result<Fact, OutOfMemory> {
    let (term, subject, object) = line;
    let subject = name(alloc, subject)?;
    if term == 0 {
        return Ok(Fact::Class(Term(term), subject));
    }
    Ok(Fact::Role(Term(term), subject, name(alloc, object)?))
}

/// The facts of the lines, in order.
fn facts(alloc: Global, lines: &[Line]) -> Result<Vec<Fact>, OutOfMemory>
    ensures { IfOk result (λ facts. AreSorted facts.items) }
{
    let mut facts = Vec::new(alloc);
    for line in lines {
        facts.push(fact(alloc, *line)?)?;
    }
    let facts = sorted_once(facts)?;
    Ok(facts)
}

/// Whether the facts are those of the lines, in order.
fn are(alloc: Global, found: &[Fact], lines: &[Line]) -> Result<bool, OutOfMemory> {
    let wanted = facts(alloc, lines)?;
    Ok(wanted.as_slice() == found)
}

/// The set over the plain set of these lines.
fn over(alloc: Global, lines: &[Line]) -> Result<Delta<PlainSet>, OutOfMemory> {
    let base = PlainSet::of(alloc, facts(alloc, lines)?)?;
    let _sorted = base.as_slice();
    Ok(Delta::over(alloc, base))
}

/// All facts of the set.
fn all(set: &Delta<PlainSet>) -> Result<Vec<Fact>, OutOfMemory>
    ensures { IfOk result (λ all. all.items ≡ standing set.now) }
{
    let all = set.all(set.base().as_slice())?;
    Ok(all)
}

fn has_all(held: &[Fact], facts: &[Fact]) -> bool
    ensures { IsTrue result → (f : fact_type.Fact) → Contains facts.now f → Contains held.now f }
{
    for fact in facts {
        if !is_among(held, fact) {
            return false;
        }
    }
    true
}

fn has_none(held: &[Fact], facts: &[Fact]) -> bool
    ensures { IsTrue result → (f : fact_type.Fact) → Contains facts.now f → ¬ Contains held.now f }
{
    for fact in facts {
        if is_among(held, fact) {
            return false;
        }
    }
    true
}

fn fits(held: &[Fact], removed: &[Fact], added: &[Fact]) -> bool
    ensures { IsTrue result → Fits held.now removed.now added.now }
{
    has_all(held, removed) && has_none(held, added)
}

/// Makes the change, where it fits.
fn change(
    alloc: Global,
    set: &mut Delta<PlainSet>,
    removed: &[Line],
    added: &[Line],
) -> Result<bool, OutOfMemory> {
    let held = set.all(set.base().as_slice())?;
    let removed = facts(alloc, removed)?;
    let added = facts(alloc, added)?;
    if !fits(held.as_slice(), removed.as_slice(), added.as_slice()) {
        return Ok(false);
    }
    set.apply(removed.as_slice(), added.as_slice())?;
    Ok(true)
}

/// What the set finds by the pattern, and whether it has the fact.
fn looked_up<L: Ledger>(
    alloc: Global,
    set: &Delta<PlainSet>,
    pattern: &Pattern,
    fact: &Fact,
    blank: Blank,
) -> Result<(Vec<Fact>, bool), OutOfMemory>
    requires name { blank.name ≡ L.name }
    requires parts { blank.parts ≡ L.parts }
    requires one { blank.parts ≡ 1 }
{
    let mut steps: Steps<L> = Steps::new(blank);
    let found = set.find(alloc, pattern, &mut steps)?;
    let has = set.has(fact, &mut steps);
    Ok((found, has))
}

/// Whether the set finds the fact by its predicate and object, and whether it has it.
fn finds(alloc: Global, set: &Delta<PlainSet>, line: Line) -> Result<(bool, bool), OutOfMemory> {
    let given = fact(alloc, line)?;
    let pattern = Pattern::RoleTo(Term(1), name(alloc, line.2)?);
    let (found, has) = looked_up::<Brand>(alloc, set, &pattern, &given, Blank::new(1))?;
    Ok((is_among(found.as_slice(), &given), has))
}

/// Whether these are all facts of the set.
fn has_these(alloc: Global, set: &Delta<PlainSet>, lines: &[Line]) -> Result<bool, OutOfMemory> {
    let all = set.all(set.base().as_slice())?;
    are(alloc, all.as_slice(), lines)
}

/// Whether these came to the set, and those went from it.
fn moved(
    alloc: Global,
    set: &Delta<PlainSet>,
    came: &[Line],
    went: &[Line],
) -> Result<bool, OutOfMemory> {
    Ok(are(alloc, set.came(), came)? && are(alloc, set.went(), went)?)
}

#[test]
fn a_set_is_its_base_at_first(rt: HostRuntime) -> Result<(), Fail> {
    let alloc = rt.alloc();
    let set = over(alloc, &BASE)?;
    assert!(rt; has_these(alloc, &set, &BASE)?);
    assert!(rt; moved(alloc, &set, &[], &[])?);
    let base = set.into_base();
    assert!(rt; are(alloc, base.as_slice(), &BASE)?);
    Ok(())
}

#[test]
fn facts_come_and_go(rt: HostRuntime) -> Result<(), Fail> {
    let alloc = rt.alloc();
    let removed = [(0, "a", ""), (1, "a", "b")];
    let added = [(0, "c", ""), (1, "b", "c")];
    let mut set = over(alloc, &BASE)?;
    assert!(rt; change(alloc, &mut set, &removed, &added)?);
    let after = [(0, "b", ""), (0, "c", ""), (1, "a", "c"), (1, "b", "c")];
    assert!(rt; has_these(alloc, &set, &after)?);
    assert!(rt; moved(alloc, &set, &added, &removed)?);
    Ok(())
}

#[test]
fn a_changed_set_is_looked_up(rt: HostRuntime) -> Result<(), Fail> {
    let alloc = rt.alloc();
    let mut set = over(alloc, &BASE)?;
    assert!(rt; change(alloc, &mut set, &[(1, "a", "b")], &[(1, "b", "c")])?);
    assert_eq!(rt; finds(alloc, &set, (1, "a", "b"))?, (false, false));
    assert_eq!(rt; finds(alloc, &set, (1, "a", "c"))?, (true, true));
    assert_eq!(rt; finds(alloc, &set, (1, "b", "c"))?, (true, true));
    Ok(())
}

#[test]
fn what_went_may_come_again(rt: HostRuntime) -> Result<(), Fail> {
    let alloc = rt.alloc();
    let mut set = over(alloc, &BASE)?;
    assert!(rt; change(alloc, &mut set, &[(1, "a", "b")], &[(1, "b", "c")])?);
    assert!(rt; change(alloc, &mut set, &[(1, "b", "c")], &[(1, "a", "b")])?);
    assert_eq!(rt; finds(alloc, &set, (1, "a", "b"))?, (true, true));
    assert!(rt; moved(alloc, &set, &[], &[])?);
    assert!(rt; !change(alloc, &mut set, &[(1, "b", "c")], &[])?);
    Ok(())
}

/// How many facts the set has, where that can be told.
fn count(set: &Delta<PlainSet>) -> Option<usize> {
    let of_base = set.base().as_slice().len();
    of_base.checked_add(set.came().len())?;
    Some(set.count(of_base))
}

// One fact comes to four and two go.
#[test]
fn a_set_is_counted_over_its_base(rt: HostRuntime) -> Result<(), Fail> {
    let alloc = rt.alloc();
    let mut set = over(alloc, &BASE)?;
    assert!(rt;
        change(
            alloc,
            &mut set,
            &[(0, "a", ""), (1, "a", "b")],
            &[(0, "c", "")]
        )?
    );
    assert_eq!(rt; count(&set), Some(3));
    Ok(())
}

/// Whether the set after the change, over another owner of the same base, has these facts.
fn with_has(
    alloc: Global,
    set: &Delta<PlainSet>,
    removed: &[Fact],
    added: &[Fact],
    lines: &[Line],
) -> Result<bool, OutOfMemory>
    requires removed { AreSorted removed.now }
    requires added { AreSorted added.now }
    requires fits { Fits (standing set.now) removed.now added.now }
{
    let base = set.base().share()?;
    let next = set.with(base, removed, added)?;
    has_these(alloc, &next, lines)
}

#[test]
fn a_change_may_be_made_over_another_owner(rt: HostRuntime) -> Result<(), Fail> {
    let alloc = rt.alloc();
    let set = over(alloc, &BASE)?;
    let held = all(&set)?;
    let removed = facts(alloc, &[(0, "a", ""), (0, "b", "")])?;
    let added = facts(alloc, &[(0, "c", "")])?;
    assert!(rt; fits(held.as_slice(), removed.as_slice(), added.as_slice()));
    let after = [(0, "c", ""), (1, "a", "b"), (1, "a", "c")];
    assert!(rt; with_has(alloc, &set, removed.as_slice(), added.as_slice(), &after)?);
    assert!(rt; moved(alloc, &set, &[], &[])?);
    Ok(())
}

/// The base, by turns marked as added and as removed.
fn changes(alloc: Global) -> Result<Vec<Changed>, OutOfMemory> {
    let mut changes = Vec::new(alloc);
    for (line, added) in BASE.into_iter().zip([true, false, true, false]) {
        changes.push(Changed {
            fact: fact(alloc, line)?,
            added,
        })?;
    }
    Ok(changes)
}

/// Whether the changes that are marked so are of these facts.
fn parted(
    alloc: Global,
    changes: &[Changed],
    mark: bool,
    lines: &[Line],
) -> Result<bool, OutOfMemory> {
    let facts = marked(alloc, changes, mark)?;
    are(alloc, facts.as_slice(), lines)
}

#[test]
fn changes_are_parted_by_their_marks(rt: HostRuntime) -> Result<(), Fail> {
    let alloc = rt.alloc();
    let changes = changes(alloc)?;
    assert!(rt;
        parted(
            alloc,
            changes.as_slice(),
            true,
            &[(0, "a", ""), (1, "a", "b")]
        )?
    );
    assert!(rt;
        parted(
            alloc,
            changes.as_slice(),
            false,
            &[(0, "b", ""), (1, "a", "c")]
        )?
    );
    Ok(())
}
