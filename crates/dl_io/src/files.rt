ghost use Rattle.std.specs.Prelude.{◌≡◌, ◌≤◌, ℕ, List, Option, IfOk, length};
ghost use Rattle.dl_io.specs.Causes.{Rose};
ghost use Rattle.dl_io.specs.Reading.{Gives, bytes_of, FailsOnlyWhere};

use std::alloc::Global;
use thiserror::Error;

/// Why a file isn't read.
#[derive(Clone, Copy, Debug, PartialEq, Eq, Error)]
pub enum FilesRefusal {
    #[error("no such file")]
    Missing,
    #[error("the file is too long")]
    TooLong,
    #[error("the file can't be read")]
    Failed,
    #[error("out of memory")]
    OutOfMemory,
}

/// Files that are read by name.
pub trait Files {
    /// The contents by name, where they are told: `None` for a name that isn't held.
    ghost contents: { Self → Option (List ℕ → Option (List ℕ)) };

    /// How often a read has failed; at the last value of its counter the count stands still.
    ghost faults: { Self → ℕ };

    /// The bytes of the file, of which there are at most `limit`. `Missing` exactly where the name isn't held, `TooLong` exactly where the
    /// file has more than `limit` bytes, `Failed` only where the count of faults rose.
    fn read(&mut self, alloc: Global, name: &str, limit: usize) -> Result<Vec<u8>, FilesRefusal>
        ensures gives { Gives (contents self.old) name.now limit (bytes_of result) }
        ensures within { IfOk result (λ bytes. length bytes.items ≤ limit) }
        ensures same { contents self.new ≡ contents self.old }
        ensures later { faults self.old ≤ faults self.new }
        ensures failed { FailsOnlyWhere (bytes_of result) (Rose (faults self.old) (faults self.new)) };
}
