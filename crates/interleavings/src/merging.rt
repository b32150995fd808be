ghost use Rattle.std.specs.Prelude.{All, IsTrue};
ghost use Rattle.dl_base.specs.Histories.{in_force};
ghost use Rattle.dl_base.specs.Ontologies.{Extends, Knows, KnowsPattern};
ghost use Rattle.dl_base.specs.Validity.{IsOntology};
ghost use Rattle.transaction.specs.Worlds.{Begun, Has, theory_of};

use crate::acts::Act;
use crate::comparing::{same_entry, same_reply};
use crate::replay::Replay;
use crate::trouble::Trouble;
use dl_base::{Fact, Facts, Ontology, Pattern, Versions, copies_of};
use fact_index::Whole;
use std::alloc::Global;
use std::sync::Arc;
use transaction::{Event, Reply, World};
use update_engine::{Rules, first_clash};

/// The two editors.
const FIRST: u32 = 1;

const SECOND: u32 = 2;

/// What is tried: rules, opening facts, a limit, and what each editor does.
pub struct Race {
    pub rules: Arc<Rules>,
    pub facts: Vec<Fact>,
    pub limit: u64,
    pub first: Vec<Act>,
    pub second: Vec<Act>,
}

impl Drop for Race {
    // Written out, so that a caller's proof takes it as one call.
    fn drop(self) {
        let Race {
            rules: _rules,
            facts: _facts,
            limit: _limit,
            first: _first,
            second: _second,
        } = self;
    }
}

impl Race {
    /// How many merges of what the two editors do were tried, and how many of these didn't go as the plain replay.
    pub fn tried(&self, alloc: Global) -> Result<(u64, u64), Trouble> {
        let total = self.first.len() + self.second.len();
        if total > 12 {
            return Err(Trouble::Unfit);
        }
        let mut merges = 0;
        let mut differ = 0;
        for mask in 0..1u32 << total {
            if mask.count_ones() as usize == self.first.len() {
                merges += 1;
                if !self.agrees(alloc, mask)? {
                    differ += 1;
                }
            }
        }
        Ok((merges, differ))
    }

    /// Whether one merge goes as the plain replay: at each step the first editor does its next where the mask has a one.
    fn agrees(&self, alloc: Global, mask: u32) -> Result<bool, Trouble> {
        let (mut world, mut replay) = self.opened(alloc)?;
        let mut first = self.first.iter();
        let mut second = self.second.iter();
        for step in 0..self.first.len() + self.second.len() {
            let (editor, act) = if step < 32 && (mask >> step as u32) & 1 == 1 {
                (FIRST, first.next())
            } else {
                (SECOND, second.next())
            };
            let Some(act) = act else {
                return Err(Trouble::Unfit);
            };
            if !goes_alike(alloc, &mut world, &mut replay, editor, act)? {
                return Ok(false);
            }
        }
        Ok(true)
    }

    /// A core over the facts, and a plain replay.
    fn opened(&self, alloc: Global) -> Result<(World<Whole>, Replay), Trouble> {
        let facts = copies_of(alloc, self.facts.as_slice())?;
        if !self.rules.knows_all(facts.as_slice()) {
            return Err(Trouble::Unfit);
        }
        if let Some(_) = first_clash(&self.rules, facts.as_slice()) {
            return Err(Trouble::Unfit);
        }
        let Ok(rules) = Arc::try_clone(&self.rules) else {
            return Err(Trouble::OutOfMemory);
        };
        let Ok(again) = Arc::try_clone(&self.rules) else {
            return Err(Trouble::OutOfMemory);
        };
        let replay = Replay::start(
            alloc,
            again,
            copies_of(alloc, facts.as_slice())?,
            self.limit,
        )?;
        let world = World::start(alloc, rules, facts, self.limit)?;
        Ok((world, replay))
    }
}

/// Whether what the editor does is answered the same by both, and leaves the same history.
fn goes_alike(
    alloc: Global,
    world: &mut World<Whole>,
    replay: &mut Replay,
    editor: u32,
    act: &Act,
) -> Result<bool, Trouble> {
    let reply = stepped(alloc, world, editor, act)?;
    let wanted = replay.reply(editor, act)?;
    if !is_as(reply, wanted) {
        return Ok(false);
    }
    same_history(alloc, world, replay)
}

/// Whether the reply is as wanted.
fn is_as(reply: Reply, wanted: Reply) -> bool {
    same_reply(&reply, &wanted)
}

/// Whether both have the same entries, and the same facts after them.
fn same_history(alloc: Global, world: &World<Whole>, replay: &Replay) -> Result<bool, Trouble> {
    let facts = world.version().all(alloc)?;
    let entries = world.entries();
    Ok(
        facts.as_slice() == replay.version()
            && entries.len() == replay.entries().len()
            && entries
                .iter()
                .zip(replay.entries().iter())
                .all(|(one, other)| same_entry(one, other)),
    )
}

/// Whether the ontology of the editor's transaction knows the facts.
fn knows(world: &World<Whole>, editor: u32, facts: &Facts) -> bool
    ensures { IsTrue result → (b : Begun) → Has world.now editor b → All (Knows (theory_of world.now b)) facts.now }
{
    world.rules(editor).knows_all(facts.as_slice())
}

/// Whether the ontology of the editor's transaction knows the pattern.
fn knows_pattern(world: &World<Whole>, editor: u32, pattern: &Pattern) -> bool
    ensures { IsTrue result → (b : Begun) → Has world.now editor b → KnowsPattern (theory_of world.now b) pattern.now }
{
    world.rules(editor).ontology().knows_pattern(pattern)
}

/// Whether the ontology extends the one in force.
fn extends(world: &World<Whole>, ontology: &Ontology) -> bool
    ensures { IsTrue result → IsOntology ontology.now × Extends ontology.now (in_force world.now.opening world.now.entries) }
{
    let _terms = ontology.terms();
    ontology.extends(world.in_force().ontology())
}

/// The core's reply to what the editor does.
fn stepped(
    alloc: Global,
    world: &mut World<Whole>,
    editor: u32,
    act: &Act,
) -> Result<Reply, Trouble> {
    let reply = match act {
        Act::Begin => world.step(Event::Begin(editor)),
        Act::Commit => world.step(Event::Commit(editor)),
        Act::Abort => world.step(Event::Abort(editor)),
        Act::Ask(pattern) => {
            let pattern = pattern.copy(alloc)?;
            if !knows_pattern(world, editor, &pattern) {
                return Err(Trouble::Unfit);
            }
            world.step(Event::Ask(editor, pattern))
        }
        Act::Change(inserts, deletes) => {
            let inserts = inserts.copy(alloc)?;
            let deletes = deletes.copy(alloc)?;
            if !knows(world, editor, &inserts) || !knows(world, editor, &deletes) {
                return Err(Trouble::Unfit);
            }
            world.step(Event::Change(editor, inserts, deletes))
        }
        Act::Replace(ontology) => {
            if !extends(world, ontology) {
                return Err(Trouble::Unfit);
            }
            match Arc::try_clone(ontology) {
                Ok(ontology) => world.step(Event::Replace(editor, ontology)),
                Err(_) => return Err(Trouble::OutOfMemory),
            }
        }
    };
    Ok(reply?)
}
