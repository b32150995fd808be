ghost use Rattle.std.specs.Prelude.{◌≡◌};
ghost use Rattle.ntriples.specs.Faults.{fault_of, refused};

use dl_base::OutOfMemory;
use dl_text::{ReadKind, ReadRefusal, TextFault};

/// Why a line isn't read.
#[derive(Clone, Copy, Debug, PartialEq, Eq)]
pub enum LineFault {
    Refused(ReadKind),
    OutOfMemory,
}

impl LineFault {
    /// The refusal of a file whose line of this number, from 1, isn't read.
    pub fn at(self, line: u64) -> ReadRefusal
        ensures { result ≡ refused line self }
    {
        match self {
            LineFault::Refused(kind) => ReadRefusal::Refused { line, kind },
            LineFault::OutOfMemory => ReadRefusal::OutOfMemory,
        }
    }
}

impl From<TextFault> for LineFault {
    ghost use Rattle.std.specs.Prelude.{◌≡◌};
    ghost use Rattle.ntriples.specs.Faults.{fault_of};

    ghost from_gives = { λ fault e. e ≡ fault_of fault };

    fn from(fault: TextFault) -> LineFault {
        match fault.kind() {
            Some(kind) => LineFault::Refused(kind),
            None => LineFault::OutOfMemory,
        }
    }
}

impl From<OutOfMemory> for LineFault {
    ghost use Rattle.std.specs.Prelude.{◌≡◌};
    ghost use Rattle.ntriples.specs.declared.faults.LineFault.TheVariants as faults;

    ghost from_gives = { λ _ e. e ≡ faults.OutOfMemory };

    fn from(_error: OutOfMemory) -> LineFault {
        LineFault::OutOfMemory
    }
}
