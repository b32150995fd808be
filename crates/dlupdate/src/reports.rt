ghost use Rattle.std.specs.Prelude.{◌≡◌};
ghost use Rattle.dlupdate.specs.declared.reports.Stop.TheVariants as stop;

use dl_base::OutOfMemory;
use std::alloc::{AllocError, AllocFailed};

/// What a run comes to: its exit status, and all that it prints.
#[derive(Debug, Drop)]
pub struct Report {
    pub status: u8,
    pub text: Vec<u8>,
}

/// Why a run goes no further.
#[derive(Debug, Drop)]
pub enum Stop {
    Report(Report),
    OutOfMemory,
}

impl From<OutOfMemory> for Stop {
    ghost from_gives = { λ _ stopped. stopped ≡ stop.OutOfMemory };

    fn from(_error: OutOfMemory) -> Stop {
        Stop::OutOfMemory
    }
}

impl From<AllocError> for Stop {
    ghost from_gives = { λ _ stopped. stopped ≡ stop.OutOfMemory };

    fn from(_error: AllocError) -> Stop {
        Stop::OutOfMemory
    }
}

impl<T: Drop> From<AllocFailed<T>> for Stop {
    ghost from_gives = { λ _ stopped. stopped ≡ stop.OutOfMemory };

    fn from(_error: AllocFailed<T>) -> Stop {
        Stop::OutOfMemory
    }
}
