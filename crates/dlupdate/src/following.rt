ghost use Rattle.std.specs.Prelude.{◌≡◌, ◌≤◌, ◌++◌, [], List, IfOk, IfErr};
ghost use Rattle.dl_base.specs.declared.statements.Fact as fact_type;
ghost use Rattle.dl_io.specs.Causes.{Rose};
ghost use Rattle.dl_base.specs.Clash.{IsConsistent};
ghost use Rattle.dlupdate.specs.Commands.{words_of};
ghost use Rattle.dlupdate.specs.Committing.{StandsAt, current};
ghost use Rattle.dlupdate.specs.Opening.{IsBase};
ghost use Rattle.dlupdate.specs.Following.{head_of, IsPart, EndsHere};
ghost use Rattle.dlupdate.specs.Runs.{FollowsFrom, IsTold, IsStopped, StopsOnly};

use crate::committing::committed;
use crate::files::update_in;
use crate::reports::{Report, Stop};
use crate::texts::{ill_formed_text, push_number, push_stored, updated_text};
use dl_base::{Ontology, OutOfMemory, Versions};
use dl_io::Files;
use fact_index::Whole;
use loading::Opened;
use std::alloc::Global;
use transaction::World;

/// The most entries that a history may have.
const MOST_ENTRIES: u64 = 1_000_000;

/// Takes the updates of these files one after another over the opened facts, each over what the one before stored. Where `numbered`
/// says so, each prints its number.
pub fn followed<F: Files>(
    alloc: Global,
    files: &mut F,
    opened: Opened,
    updates: &[String],
    numbered: bool,
) -> Result<Report, Stop>
    requires base { IsBase opened }
    ensures ok { IfOk result (IsTold (F.contents files.old) (λ c. FollowsFrom c opened.ontology (head_of numbered) opened.facts.items (words_of updates.now))) }
    ensures stopped { IfErr result (IsStopped (F.contents files.old) (λ c. FollowsFrom c opened.ontology (head_of numbered) opened.facts.items (words_of updates.now))) }
    ensures fine { IfOk result (λ report. report.status ≡ 0) }
    ensures failed { IfErr result (StopsOnly (Rose (F.faults files.old) (F.faults files.new))) }
    ensures later { F.faults files.old ≤ F.faults files.new }
{
    let Opened {
        ontology,
        rules,
        facts,
        skipped: _,
    } = opened;
    let mut world: World<Whole> = World::start(alloc, rules, facts, MOST_ENTRIES)?;
    let mut text = Vec::new(alloc);
    for (number, name) in updates.iter().enumerate() {
        match part(
            alloc,
            files,
            &ontology,
            &mut world,
            number,
            name.as_str(),
            numbered,
        ) {
            Ok(part) => text.extend_from_slice(part.as_slice())?,
            Err(Stop::Report(report)) => return Err(Stop::Report(behind(text, report)?)),
            Err(Stop::OutOfMemory) => return Err(Stop::OutOfMemory),
        }
    }
    let stored = world.version().all(alloc)?;
    push_stored(alloc, &mut text, &ontology, stored.as_slice())?;
    Ok(Report { status: 0, text })
}

/// The report behind what was printed before it.
fn behind(text: Vec<u8>, report: Report) -> Result<Report, OutOfMemory>
    ensures { IfOk result (λ all. (all.status ≡ report.status) × (all.text.items ≡ text.items ++ report.text.items)) }
{
    let mut text = text;
    text.extend_from_slice(report.text.as_slice())?;
    Ok(Report {
        status: report.status,
        text,
    })
}

/// Takes the update of one file, and gives what it prints.
fn part<F: Files>(
    alloc: Global,
    files: &mut F,
    ontology: &Ontology,
    world: &mut World<Whole>,
    number: usize,
    name: &str,
    numbered: bool,
) -> Result<Vec<u8>, Stop>
    requires idle { world.old.begun ≡ [] }
    requires force { current world.old ≡ ontology.now }
    ensures ok { IfOk result (λ part. (stored : List fact_type.Fact) → StandsAt world.old ontology.now stored → IsConsistent ontology.now.axioms stored
        → IsPart (F.contents files.old) ontology.now (head_of numbered) number stored name.now world.new part.items) }
    ensures stopped { IfErr result (λ s. (stored : List fact_type.Fact) → StandsAt world.old ontology.now stored
        → EndsHere (F.contents files.old) ontology.now (head_of numbered) number stored name.now s) }
    ensures failed { IfErr result (StopsOnly (Rose (F.faults files.old) (F.faults files.new))) }
    ensures same { F.contents files.new ≡ F.contents files.old }
    ensures later { F.faults files.old ≤ F.faults files.new }
{
    let update = match update_in(alloc, files, ontology, name) {
        Ok(update) => update,
        Err(stop) => return Err(stop),
    };
    let inserts = update.inserts.copy(alloc)?;
    let deletes = update.deletes.copy(alloc)?;
    match committed(world, inserts, deletes)? {
        Ok(lost) => {
            let text = head_text(alloc, number, numbered)?;
            Ok(updated_text(alloc, text, ontology, update.skipped, lost.as_slice())?)
        }
        Err(ill_formed) => {
            let text = ill_formed_text(
                alloc,
                ontology,
                number,
                update.inserts.as_slice(),
                update.deletes.as_slice(),
                ill_formed,
            )?;
            Err(Stop::Report(Report { status: 5, text }))
        }
    }
}

/// What an update prints first.
fn head_text(alloc: Global, number: usize, numbered: bool) -> Result<Vec<u8>, OutOfMemory>
    ensures { IfOk result (λ text. text.items ≡ head_of numbered number) }
{
    let mut text = Vec::new(alloc);
    if numbered {
        push_number(alloc, &mut text, number)?;
    }
    Ok(text)
}
