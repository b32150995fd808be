use dl_base::{Facts, Ontology};

/// What a history begins with: the opening ontology and facts, and the most entries that it may have.
#[derive(Drop)]
pub struct Opening {
    pub ontology: Ontology,
    pub facts: Facts,
    pub limit: u64,
}

/// A state that stands for a history: an opening and a list of entries. The lock never looks into it.
pub trait Grows {
    ghost use Rattle.std.specs.Prelude.{List};
    ghost use Rattle.dl_base.specs.declared.requests.Entry.{Entry};
    ghost use Rattle.history_lock.specs.declared.histories.Opening.{Opening};

    ghost opening: { Self → Opening };

    ghost entries: { Self → List Entry };
}
