ghost use Rattle.std.specs.Prelude.{◌≡◌};
ghost use Rattle.dl_base.specs.declared.refusals.OntologyRefusal.TheVariants as refusal;

use crate::memory::OutOfMemory;
use std::alloc::{AllocError, AllocFailed};

/// Why terms and axioms make no ontology, in the order in which it is looked for. Places count from 0.
#[derive(Clone, Copy, Debug, PartialEq, Eq)]
pub enum OntologyRefusal {
    /// There are more than 4,000 terms.
    TooManyTerms,
    /// The term at this place has a name that stood before.
    TwoKinds(usize),
    /// The axiom at this place names what is no term of the kind that its place needs.
    BadAxiom(usize),
    /// With the axiom at this place a functional role or attribute is specialised.
    FunctionalSpecialised(usize),
    OutOfMemory,
}

impl From<OutOfMemory> for OntologyRefusal {
    ghost from_gives = { λ _ refused. refused ≡ refusal.OutOfMemory };

    fn from(_error: OutOfMemory) -> OntologyRefusal {
        OntologyRefusal::OutOfMemory
    }
}

impl From<AllocError> for OntologyRefusal {
    ghost from_gives = { λ _ refused. refused ≡ refusal.OutOfMemory };

    fn from(_error: AllocError) -> OntologyRefusal {
        OntologyRefusal::OutOfMemory
    }
}

impl<T: Drop> From<AllocFailed<T>> for OntologyRefusal {
    ghost from_gives = { λ _ refused. refused ≡ refusal.OutOfMemory };

    fn from(_error: AllocFailed<T>) -> OntologyRefusal {
        OntologyRefusal::OutOfMemory
    }
}
