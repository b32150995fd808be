ghost use Rattle.std.specs.Prelude.{◌≡◌};
ghost use Rattle.update_engine.specs.declared.answers.StepRefusal.TheVariants as refusal;

use crate::judging::IllFormed;
use dl_base::{Fact, OutOfMemory};
use std::convert::From;

/// What a request changes, each list in the order of facts and without repeats: the facts of the set that go, those that come, of these
/// the ones that the set didn't have, and those that are entailed no more.
#[derive(Debug, Drop)]
pub struct Step {
    pub removed: Vec<Fact>,
    pub put: Vec<Fact>,
    pub added: Vec<Fact>,
    pub lost: Vec<Fact>,
}

/// Why there is no step: the request contradicts itself, or memory is wanting.
#[derive(Debug, Clone, Copy, PartialEq, Eq)]
pub enum StepRefusal {
    IllFormed(IllFormed),
    OutOfMemory,
}

impl From<OutOfMemory> for StepRefusal {
    ghost from_gives = { λ _ refused. refused ≡ refusal.OutOfMemory };

    fn from(_: OutOfMemory) -> StepRefusal {
        StepRefusal::OutOfMemory
    }
}
