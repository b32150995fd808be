//! An index, and one that is shared, beside a plain set.
ghost use Rattle.std.specs.Prelude.{◌≡◌, ◌∷◌, [], IfOk};
ghost use Rattle.dl_base.specs.Changing.{added, removed};

use crate::samples::{ASKED, LINES, Line, fact, facts, pattern};
use crate::{Index, Refused, Whole};
use dl_base::{
    Changed, Fact, FactSet, Name, OutOfMemory, Pattern, PlainSet, Steps, Term, Versions, is_among,
};
use std::alloc::Global;
use std::marker::Brand;
use std::sync::ledger::{Blank, Ledger};
use std::test::Fail;

/// Of each line whether the set finds its fact by the pattern, as `x` or `.`.
fn marks<S: FactSet, L: Ledger>(
    alloc: Global,
    set: &S,
    pattern: &Pattern,
    blank: Blank,
) -> Result<String, OutOfMemory>
    requires name { blank.name ≡ L.name }
    requires parts { blank.parts ≡ L.parts }
    requires one { blank.parts ≡ 1 }
{
    let mut steps: Steps<L> = Steps::new(blank);
    let found = set.find(alloc, pattern, &mut steps)?;
    let mut marks = String::new(alloc);
    for line in LINES {
        let given = fact(alloc, line)?;
        let is_found = is_among(found.as_slice(), &given);
        marks.push(if is_found { 'x' } else { '.' })?;
    }
    Ok(marks)
}

/// The same of the pattern with this number.
fn found_by<S: FactSet>(alloc: Global, set: &S, number: usize) -> Result<String, OutOfMemory> {
    let asked = pattern(alloc, number)?;
    marks::<S, Brand>(alloc, set, &asked, Blank::new(1))
}

/// Whether the set has the fact.
fn looked_up<S: FactSet, L: Ledger>(set: &S, fact: &Fact, blank: Blank) -> bool
    requires name { blank.name ≡ L.name }
    requires parts { blank.parts ≡ L.parts }
    requires one { blank.parts ≡ 1 }
{
    let mut steps: Steps<L> = Steps::new(blank);
    set.has(fact, &mut steps)
}

fn has<S: FactSet>(alloc: Global, set: &S, line: Line) -> Result<bool, OutOfMemory> {
    let fact = fact(alloc, line)?;
    Ok(looked_up::<S, Brand>(set, &fact, Blank::new(1)))
}

/// Whether the fact is new.
fn put(alloc: Global, index: &mut Index, line: Line) -> Result<bool, OutOfMemory> {
    match index.insert(fact(alloc, line)?) {
        Ok(added) => Ok(added),
        Err(Refused::OutOfMemory(_)) => Err(OutOfMemory),
    }
}

/// Whether the fact was held.
fn take(alloc: Global, index: &mut Index, line: Line) -> Result<bool, OutOfMemory> {
    let fact = fact(alloc, line)?;
    Ok(index.remove(&fact))
}

/// An index of the facts of the lines, which had another one for a while.
fn indexed(alloc: Global) -> Result<Index, OutOfMemory> {
    let mut index = Index::new(alloc);
    for line in LINES {
        put(alloc, &mut index, line)?;
    }
    put(alloc, &mut index, (1, "c", "c"))?;
    take(alloc, &mut index, (1, "c", "c"))?;
    Ok(index)
}

/// Whether the set finds by each pattern what is wanted.
fn finds_all<S: FactSet>(alloc: Global, set: &S) -> Result<bool, Fail> {
    for (number, want) in ASKED.into_iter().enumerate() {
        let marks = found_by(alloc, set, number)?;
        if marks.as_str() != want {
            return Ok(false);
        }
    }
    Ok(true)
}

#[test]
fn an_index_finds_what_a_plain_set_finds(rt: HostRuntime) -> Result<(), Fail> {
    let alloc = rt.alloc();
    let plain = PlainSet::of(alloc, facts(alloc, &LINES)?)?;
    assert!(rt; finds_all(alloc, &plain)?);
    let index = indexed(alloc)?;
    assert!(rt; finds_all(alloc, &index)?);
    let whole: Whole = Versions::of(alloc, facts(alloc, &LINES)?)?;
    assert!(rt; finds_all(alloc, &whole)?);
    Ok(())
}

#[test]
fn facts_are_taken_in_once(rt: HostRuntime) -> Result<(), Fail> {
    let alloc = rt.alloc();
    let mut index = Index::new(alloc);
    assert!(rt; put(alloc, &mut index, (1, "a", "b"))?);
    assert!(rt; !put(alloc, &mut index, (1, "a", "b"))?);
    assert!(rt; has(alloc, &index, (1, "a", "b"))?);
    assert!(rt; !has(alloc, &index, (1, "b", "a"))?);
    Ok(())
}

#[test]
fn facts_are_taken_out_once(rt: HostRuntime) -> Result<(), Fail> {
    let alloc = rt.alloc();
    let mut index = indexed(alloc)?;
    assert!(rt; !take(alloc, &mut index, (1, "b", "a"))?);
    assert!(rt; take(alloc, &mut index, (1, "a", "b"))?);
    assert!(rt; !take(alloc, &mut index, (1, "a", "b"))?);
    assert!(rt; !has(alloc, &index, (1, "a", "b"))?);
    Ok(())
}

/// One fact comes and one goes.
fn changes(alloc: Global, comes: &Fact, goes: &Fact) -> Result<Vec<Changed>, OutOfMemory>
    ensures { IfOk result (λ changes. changes.items ≡ added comes.now ∷ removed goes.now ∷ []) }
{
    let mut changes = Vec::new(alloc);
    changes.push(Changed {
        fact: comes.copy(alloc)?,
        added: true,
    })?;
    changes.push(Changed {
        fact: goes.copy(alloc)?,
        added: false,
    })?;
    Ok(changes)
}

/// The set after the change, where it fits.
fn changed<S: Versions + Drop>(
    alloc: Global,
    set: &S,
    comes: &Fact,
    goes: &Fact,
) -> Result<Option<S>, OutOfMemory> {
    let all = set.all(alloc)?;
    if is_among(all.as_slice(), comes) || !is_among(all.as_slice(), goes) {
        return Ok(None);
    }
    let changes = changes(alloc, comes, goes)?;
    let next = set.with_change(alloc, changes.as_slice())?;
    Ok(Some(next))
}

/// The facts of a set of those of the lines, shared and changed, and how many there are.
fn changed_lines<S: Versions + Drop>(alloc: Global) -> Result<(Vec<Fact>, usize), OutOfMemory> {
    let set: S = Versions::of(alloc, facts(alloc, &LINES)?)?;
    let set = set.share()?;
    let comes = fact(alloc, (1, "d", "b"))?;
    let goes = fact(alloc, (2, "b", "1"))?;
    match changed(alloc, &set, &comes, &goes)? {
        Some(next) => Ok((next.all(alloc)?, next.count())),
        None => Err(OutOfMemory),
    }
}

#[test]
fn a_whole_is_changed_as_a_plain_set(rt: HostRuntime) -> Result<(), Fail> {
    let alloc = rt.alloc();
    let (wanted, count) = changed_lines::<PlainSet>(alloc)?;
    let (found, number) = changed_lines::<Whole>(alloc)?;
    assert_eq!(rt; (count, number), (8, 8));
    assert!(rt; found.as_slice() == wanted.as_slice());
    Ok(())
}

/// How often a set is changed until a shared index is made anew.
const OFTEN: usize = 520;

/// The fact that one is in the class, whose name has this letter and number.
fn numbered(alloc: Global, letter: &str, number: usize) -> Result<Fact, OutOfMemory> {
    let text = format!(in alloc; "{letter}{number}")?;
    Ok(Fact::Class(Term(0), Name::of(alloc, text.as_bytes())?))
}

/// The facts of a set in which one fact came and one of the first facts went, more often than a shared index takes beside itself.
fn often_changed<S: Versions + Drop>(alloc: Global) -> Result<Vec<Fact>, OutOfMemory> {
    let mut facts = Vec::new(alloc);
    for number in 0..OFTEN + 1 {
        facts.push(numbered(alloc, "a", number)?)?;
    }
    let mut set: S = Versions::of(alloc, facts)?;
    for number in 0..OFTEN {
        let comes = numbered(alloc, "b", number)?;
        let goes = numbered(alloc, "a", number)?;
        match changed(alloc, &set, &comes, &goes)? {
            Some(next) => set = next,
            None => return Err(OutOfMemory),
        }
    }
    Ok(set.all(alloc)?)
}

#[test]
fn a_whole_is_changed_often(rt: HostRuntime) -> Result<(), Fail> {
    let alloc = rt.alloc();
    let wanted = often_changed::<PlainSet>(alloc)?;
    let found = often_changed::<Whole>(alloc)?;
    assert_eq!(rt; found.len(), OFTEN + 1);
    assert!(rt; found.as_slice() == wanted.as_slice());
    Ok(())
}
