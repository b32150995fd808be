ghost use Rattle.std.specs.Prelude.{◌≡◌};
ghost use Rattle.loading.specs.declared.refusals.LoadRefusal.TheVariants as refusal;

use dl_base::{Fact, OutOfMemory};
use dl_text::ReadRefusal;
use std::alloc::{AllocError, AllocFailed};

/// Why no base is opened, in the order in which it is looked for.
#[derive(Debug, Drop)]
pub enum LoadRefusal {
    /// The ontology's text is refused.
    Ontology(ReadRefusal),
    /// The facts' text is refused.
    Facts(ReadRefusal),
    /// The first fact that contradicts the axioms by itself.
    Alone(Fact),
    /// The first two facts that contradict them together.
    Pair(Fact, Fact),
    OutOfMemory,
}

impl From<OutOfMemory> for LoadRefusal {
    ghost from_gives = { λ _ refused. refused ≡ refusal.OutOfMemory };

    fn from(_error: OutOfMemory) -> LoadRefusal {
        LoadRefusal::OutOfMemory
    }
}

impl From<AllocError> for LoadRefusal {
    ghost from_gives = { λ _ refused. refused ≡ refusal.OutOfMemory };

    fn from(_error: AllocError) -> LoadRefusal {
        LoadRefusal::OutOfMemory
    }
}

impl<T: Drop> From<AllocFailed<T>> for LoadRefusal {
    ghost from_gives = { λ _ refused. refused ≡ refusal.OutOfMemory };

    fn from(_error: AllocFailed<T>) -> LoadRefusal {
        LoadRefusal::OutOfMemory
    }
}
