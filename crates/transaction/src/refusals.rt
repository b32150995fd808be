ghost use Rattle.std.specs.Prelude.{◌≡◌};
ghost use Rattle.transaction.specs.declared.refusals.TxRefusal.TheVariants as refusal;

use dl_base::OutOfMemory;
use std::convert::From;
use update_engine::IllFormed;

/// Why a transaction doesn't serve a request.
#[derive(Debug, Clone, Copy, PartialEq, Eq)]
pub enum TxRefusal {
    /// It has as many requests as it may have.
    TooManyRequests,
    /// The change contradicts itself.
    IllFormed(IllFormed),
    OutOfMemory,
}

impl From<OutOfMemory> for TxRefusal {
    ghost from_gives = { λ _ refused. refused ≡ refusal.OutOfMemory };

    fn from(_: OutOfMemory) -> TxRefusal {
        TxRefusal::OutOfMemory
    }
}
