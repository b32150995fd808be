//! Events of editors, each with the reply that it must have.
ghost use Rattle.std.specs.Prelude.{IsTrue, All, Contains};
ghost use Rattle.dl_base.specs.Histories.{in_force};
ghost use Rattle.dl_base.specs.Ontologies.{Extends, Knows, KnowsPattern};
ghost use Rattle.dl_base.specs.Validity.{IsOntology};
ghost use Rattle.transaction.specs.Worlds.{Begun, Has, theory_of};

use crate::events::{Event, Reply};
use crate::samples::{Line, facts, university};
use crate::worlds::World;
use crate::worlds::replies::{are_answers, loses};
use dl_base::{Changed, Facts, Ontology, OutOfMemory, Pattern, PlainSet, Term};
use read_patterns::Met;
use std::alloc::Global;
use std::process::Abort;
use std::sync::Arc;
use std::test::Fail;
use update_engine::first_clash;

/// A core over these facts, which are known and consistent.
pub fn opened(
    rt: &impl Abort,
    alloc: Global,
    lines: &[Line],
    limit: u64,
) -> Result<World<PlainSet>, Fail> {
    let rules = university(alloc)?;
    let facts = facts(alloc, lines)?;
    assert!(rt; rules.knows_all(facts.as_slice()));
    if let Some(clash) = first_clash(&rules, facts.as_slice()) {
        panic!(rt; "{clash:?}");
    }
    let world = World::start(alloc, Arc::new(alloc, rules)?, facts, limit)?;
    Ok(world)
}

/// Whether the ontology of the editor's transaction knows the facts.
fn knows(world: &World<PlainSet>, editor: u32, facts: &Facts) -> bool
    ensures { IsTrue result → (b : Begun) → Has world.now editor b → All (Knows (theory_of world.now b)) facts.now }
{
    world.rules(editor).knows_all(facts.as_slice())
}

/// Whether the ontology of the editor's transaction knows the pattern.
fn knows_pattern(world: &World<PlainSet>, editor: u32, pattern: &Pattern) -> bool
    ensures { IsTrue result → (b : Begun) → Has world.now editor b → KnowsPattern (theory_of world.now b) pattern.now }
{
    world.rules(editor).ontology().knows_pattern(pattern)
}

/// The reply to a change.
pub fn change(
    rt: &impl Abort,
    alloc: Global,
    world: &mut World<PlainSet>,
    editor: u32,
    inserts: &[Line],
    deletes: &[Line],
) -> Result<Reply, Fail> {
    let inserts = Facts::of(facts(alloc, inserts)?);
    let deletes = Facts::of(facts(alloc, deletes)?);
    assert!(rt; knows(world, editor, &inserts));
    assert!(rt; knows(world, editor, &deletes));
    Ok(world.step(Event::Change(editor, inserts, deletes))?)
}

/// The change loses nothing.
pub fn changes(
    rt: &impl Abort,
    alloc: Global,
    world: &mut World<PlainSet>,
    editor: u32,
    inserts: &[Line],
    deletes: &[Line],
) -> Result<(), Fail> {
    let reply = change(rt, alloc, world, editor, inserts, deletes)?;
    loses(rt, alloc, reply, &[])
}

/// The members of the class are these.
pub fn asks(
    rt: &impl Abort,
    alloc: Global,
    world: &mut World<PlainSet>,
    editor: u32,
    class: u32,
    lines: &[Line],
) -> Result<(), Fail> {
    let pattern = Pattern::Class(Term(class));
    assert!(rt; knows_pattern(world, editor, &pattern));
    let reply = world.step(Event::Ask(editor, pattern))?;
    assert!(rt; are_answers(alloc, &reply, lines)?, "{reply:?}");
    Ok(())
}

/// The transaction begins at this version.
pub fn begins(
    rt: &impl Abort,
    world: &mut World<PlainSet>,
    editor: u32,
    base: u64,
) -> Result<(), Fail> {
    let reply = world.step(Event::Begin(editor))?;
    assert!(rt;
        matches!(&reply, Reply::Begun(number) if *number == base),
        "{reply:?}"
    );
    Ok(())
}

/// The commit makes the entry of this number.
pub fn commits(
    rt: &impl Abort,
    world: &mut World<PlainSet>,
    editor: u32,
    entry: u64,
) -> Result<(), Fail> {
    let reply = world.step(Event::Commit(editor))?;
    assert!(rt;
        matches!(&reply, Reply::Committed(number) if *number == entry),
        "{reply:?}"
    );
    Ok(())
}

/// The transaction, which has no change, had begun at this version.
pub fn reads_only(
    rt: &impl Abort,
    world: &mut World<PlainSet>,
    editor: u32,
    base: u64,
) -> Result<(), Fail> {
    let reply = world.step(Event::Commit(editor))?;
    assert!(rt;
        matches!(&reply, Reply::ReadOnly(number) if *number == base),
        "{reply:?}"
    );
    Ok(())
}

/// This stands in the way of the commit.
pub fn conflicts(
    rt: &impl Abort,
    world: &mut World<PlainSet>,
    editor: u32,
    met: Met,
) -> Result<(), Fail> {
    let reply = world.step(Event::Commit(editor))?;
    assert!(rt;
        matches!(&reply, Reply::Conflict(found) if *found == met),
        "{reply:?}"
    );
    Ok(())
}

/// Begins, inserts these facts and commits them as the entry of this number.
pub fn inserts(
    rt: &impl Abort,
    alloc: Global,
    world: &mut World<PlainSet>,
    editor: u32,
    lines: &[Line],
    entry: u64,
) -> Result<(), Fail> {
    let base = world.entries().len() as u64;
    begins(rt, world, editor, base)?;
    changes(rt, alloc, world, editor, lines, &[])?;
    commits(rt, world, editor, entry)
}

/// Begins, deletes these facts, which are lost alone, and commits that as the entry of this number.
pub fn deletes(
    rt: &impl Abort,
    alloc: Global,
    world: &mut World<PlainSet>,
    editor: u32,
    lines: &[Line],
    entry: u64,
) -> Result<(), Fail> {
    let base = world.entries().len() as u64;
    begins(rt, world, editor, base)?;
    let reply = change(rt, alloc, world, editor, &[], lines)?;
    loses(rt, alloc, reply, lines)?;
    commits(rt, world, editor, entry)
}

/// Whether the ontology can be put in force: whether it extends the one in force.
fn extends(world: &World<PlainSet>, ontology: &Ontology) -> bool
    ensures { IsTrue result → IsOntology ontology.now × Extends ontology.now (in_force world.now.opening world.now.entries) }
{
    let _terms = ontology.terms();
    ontology.extends(world.history.rules().ontology())
}

/// The reply to a replacement.
pub fn replace(
    rt: &impl Abort,
    alloc: Global,
    world: &mut World<PlainSet>,
    editor: u32,
    ontology: Ontology,
) -> Result<Reply, Fail> {
    assert!(rt; extends(world, &ontology));
    let ontology = Arc::new(alloc, ontology)?;
    Ok(world.step(Event::Replace(editor, ontology))?)
}

/// Whether these facts were changed, the removed ones marked with `false`.
fn are_changed(
    alloc: Global,
    changed: &[Changed],
    lines: &[(Line, bool)],
) -> Result<bool, OutOfMemory> {
    let mut wanted = Vec::new(alloc);
    for (line, _) in lines {
        wanted.push(*line)?;
    }
    let wanted = facts(alloc, wanted.as_slice())?;
    let same = changed.iter().map(|change| &change.fact).eq(wanted.iter());
    let marked = changed.iter().map(|change| change.added);
    Ok(same && marked.eq(lines.iter().map(|(_, added)| *added)))
}

/// Whether the last entry is of this editor and changed these facts.
pub fn last_changed(
    alloc: Global,
    world: &World<PlainSet>,
    editor: u32,
    lines: &[(Line, bool)],
) -> Result<bool, OutOfMemory> {
    match world.entries() {
        [.., last] => {
            Ok(last.editor == editor && are_changed(alloc, last.changed.as_slice(), lines)?)
        }
        [] => Ok(false),
    }
}
