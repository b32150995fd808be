ghost use Rattle.std.specs.Prelude.{◌≡◌};
ghost use Rattle.dl_text.specs.Kinds.{kind_of};

use crate::kinds::ReadKind;
use dl_base::OutOfMemory;
use std::alloc::{AllocError, AllocFailed};
use thiserror::Error;

/// Why the text of a name or of a value isn't read.
#[derive(Clone, Copy, Debug, PartialEq, Eq, Error)]
pub enum TextFault {
    #[error("not an absolute IRI")]
    BadIri,
    #[error("an escape that stands for nothing")]
    BadEscape,
    #[error("no text of the datatype")]
    BadLiteral,
    #[error("too long")]
    NameTooLong,
    #[error("an unknown prefix")]
    UnknownPrefix,
    #[error("out of memory")]
    OutOfMemory,
}

impl TextFault {
    /// The kind of refusal that the fault of a text leads to. Want of memory is none.
    pub fn kind(self) -> Option<ReadKind>
        ensures { result ≡ kind_of self }
    {
        match self {
            TextFault::BadIri => Some(ReadKind::BadIri),
            TextFault::BadEscape => Some(ReadKind::BadEscape),
            TextFault::BadLiteral => Some(ReadKind::BadLiteral),
            TextFault::NameTooLong => Some(ReadKind::NameTooLong),
            TextFault::UnknownPrefix => Some(ReadKind::UnknownPrefix),
            TextFault::OutOfMemory => None,
        }
    }
}

impl From<AllocError> for TextFault {
    ghost use Rattle.std.specs.Prelude.{◌≡◌};
    ghost use Rattle.dl_text.specs.declared.faults.TextFault.TheVariants as faults;

    ghost from_gives = { λ _ e. e ≡ faults.OutOfMemory };

    fn from(_error: AllocError) -> TextFault {
        TextFault::OutOfMemory
    }
}

impl From<OutOfMemory> for TextFault {
    ghost use Rattle.std.specs.Prelude.{◌≡◌};
    ghost use Rattle.dl_text.specs.declared.faults.TextFault.TheVariants as faults;

    ghost from_gives = { λ _ e. e ≡ faults.OutOfMemory };

    fn from(_error: OutOfMemory) -> TextFault {
        TextFault::OutOfMemory
    }
}

impl<T: Drop> From<AllocFailed<T>> for TextFault {
    ghost use Rattle.std.specs.Prelude.{◌≡◌};
    ghost use Rattle.dl_text.specs.declared.faults.TextFault.TheVariants as faults;

    ghost from_gives = { λ _ e. e ≡ faults.OutOfMemory };

    fn from(_error: AllocFailed<T>) -> TextFault {
        TextFault::OutOfMemory
    }
}
