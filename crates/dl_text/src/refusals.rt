use crate::kinds::ReadKind;
use dl_base::OutOfMemory;
use std::alloc::{AllocError, AllocFailed};
use thiserror::Error;

/// Why a whole text isn't read: the first fault of the first pass that refuses, with its line, from 1.
#[derive(Clone, Copy, Debug, PartialEq, Eq, Error)]
pub enum ReadRefusal {
    #[error("line {line}: {kind:?}")]
    Refused { line: u64, kind: ReadKind },
    #[error("out of memory")]
    OutOfMemory,
}

impl From<AllocError> for ReadRefusal {
    ghost use Rattle.std.specs.Prelude.{◌≡◌};
    ghost use Rattle.dl_text.specs.declared.refusals.ReadRefusal.TheVariants as refusals;

    ghost from_gives = { λ _ e. e ≡ refusals.OutOfMemory };

    fn from(_error: AllocError) -> ReadRefusal {
        ReadRefusal::OutOfMemory
    }
}

impl From<OutOfMemory> for ReadRefusal {
    ghost use Rattle.std.specs.Prelude.{◌≡◌};
    ghost use Rattle.dl_text.specs.declared.refusals.ReadRefusal.TheVariants as refusals;

    ghost from_gives = { λ _ e. e ≡ refusals.OutOfMemory };

    fn from(_error: OutOfMemory) -> ReadRefusal {
        ReadRefusal::OutOfMemory
    }
}

impl<T: Drop> From<AllocFailed<T>> for ReadRefusal {
    ghost use Rattle.std.specs.Prelude.{◌≡◌};
    ghost use Rattle.dl_text.specs.declared.refusals.ReadRefusal.TheVariants as refusals;

    ghost from_gives = { λ _ e. e ≡ refusals.OutOfMemory };

    fn from(_error: AllocFailed<T>) -> ReadRefusal {
        ReadRefusal::OutOfMemory
    }
}
