ghost use Rattle.std.specs.Prelude.{◌≡◌};
ghost use Rattle.interleavings.specs.declared.trouble.Trouble.TheVariants as trouble;

use dl_base::OutOfMemory;
use std::convert::From;

/// Why a row isn't tried to its end.
#[derive(Debug, Clone, Copy, PartialEq, Eq)]
pub enum Trouble {
    /// A file or a text can't be read.
    Unreadable,
    /// Facts aren't known to the ontology, or contradict it.
    Unfit,
    OutOfMemory,
}

impl From<OutOfMemory> for Trouble {
    ghost from_gives = { λ _ t. t ≡ trouble.OutOfMemory };

    fn from(_: OutOfMemory) -> Trouble {
        Trouble::OutOfMemory
    }
}
