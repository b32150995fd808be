ghost use Rattle.std.specs.Prelude.{◌≡◌, [], ◌<◌, ◌^◌, IfSome};

use dl_base::{Facts, Ontology};
use history_lock::{Grows, Opening};
use std::alloc::Global;

/// A state whose history stays without entries.
#[derive(Drop)]
pub struct Still {
    opening: Opening,
}

impl Grows for Still {
    ghost opening = { λ s. s.opening };

    ghost entries = { λ s. [] };
}

impl Still {
    /// Over an empty ontology. `None` where memory is refused.
    pub fn new(alloc: Global) -> Option<Still>
        ensures { IfSome result (λ s. s.opening.limit < 2 ^ 64) }
    {
        let Ok(ontology) = Ontology::of(alloc, Vec::new(alloc), Vec::new(alloc)) else {
            return None;
        };
        Some(Still {
            opening: Opening {
                ontology,
                facts: Facts::of(Vec::new(alloc)),
                limit: 1,
            },
        })
    }
}
