ghost use Rattle.std.specs.Prelude.{◌≡◌, IfOk};
ghost use Rattle.dl_text.specs.Outcomes.{ReadsIri};

use crate::faults::TextFault;
use crate::iris::is_iri;
use crate::reading::{LONGEST_IRI, read_iri};
use dl_base::{Name, OutOfMemory};
use std::alloc::Global;
use std::collections::HashMap;
use std::hash::{FoldHasher, Hasher};

/// Names that were made before, so that equal names of a long text share their bytes. Two names whose bytes have one hash
/// take turns in it: sharing spares memory, and no answer rests on it.
#[derive(Drop)]
pub struct NamePool {
    alloc: Global,
    names: HashMap<u64, Name>,
}

fn hash_of(bytes: &[u8]) -> u64 {
    let mut hasher = FoldHasher::default();
    hasher.write(bytes);
    hasher.finish()
}

impl NamePool {
    pub fn new(alloc: Global) -> NamePool {
        NamePool {
            alloc,
            names: HashMap::new(alloc),
        }
    }

    /// The name with these bytes.
    pub fn name(&mut self, bytes: &[u8]) -> Result<Name, OutOfMemory>
        ensures { IfOk result (λ name. name ≡ bytes.now) }
    {
        let hash = hash_of(bytes);
        if let Some(found) = self.names.get(&hash)
            && found.as_slice() == bytes
        {
            return found.copy(self.alloc);
        }
        let name = Name::of(self.alloc, bytes)?;
        let shared = name.copy(self.alloc)?;
        self.names.insert(hash, shared)?;
        Ok(name)
    }

    /// As the function `read_iri`.
    pub fn read_iri(&mut self, bytes: &[u8], escapes: bool) -> Result<Name, TextFault>
        ensures { ReadsIri escapes bytes.now result }
    {
        if bytes.len() <= LONGEST_IRI && is_iri(bytes) {
            return Ok(self.name(bytes)?);
        }
        read_iri(self.alloc, bytes, escapes)
    }
}
