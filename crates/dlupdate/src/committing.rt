ghost use Rattle.std.specs.Prelude.{◌≡◌, [], List, All, IfOk};
ghost use Rattle.dl_base.specs.Ontologies.{Knows};
ghost use Rattle.dl_base.specs.declared.statements.Fact as fact_type;
ghost use Rattle.dlupdate.specs.Committing.{StandsAt, Commits, current};

use dl_base::{Facts, OutOfMemory};
use fact_index::Whole;
use transaction::{Event, Reply, World};
use update_engine::IllFormed;

/// Takes one update as a transaction of one change, and commits it: the facts that it lost, or how it contradicts itself.
pub fn committed(
    world: &mut World<Whole>,
    inserts: Facts,
    deletes: Facts,
) -> Result<Result<Facts, IllFormed>, OutOfMemory>
    requires idle { world.old.begun ≡ [] }
    requires known { All (Knows (current world.old)) inserts × All (Knows (current world.old)) deletes }
    ensures { IfOk result (λ answer. (stored : List fact_type.Fact) → StandsAt world.old (current world.old) stored
        → Commits (current world.old) stored inserts deletes world.new answer) }
{
    // The contracts of the two versions say what stands before and after.
    let _before = world.version();
    world.step(Event::Begin(0))?;
    match world.step(Event::Change(0, inserts, deletes))? {
        Reply::Lost(lost) => match world.step(Event::Commit(0))? {
            Reply::Committed(_) => {
                let _after = world.version();
                Ok(Ok(lost))
            }
            // A script's history has room for each of its updates.
            _ => Err(OutOfMemory),
        },
        Reply::IllFormed(name) => Ok(Err(name)),
        _ => Err(OutOfMemory),
    }
}
