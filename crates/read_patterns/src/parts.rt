use crate::recorded::Recorded;
use dl_base::Fact;

/// What a transaction hands over to be committed: the number of entries at its begin, its requests, and from that version on the facts that
/// it put and the facts that it took for good, each list in the order of facts and without repeats.
#[derive(Debug, Drop)]
pub struct Parts {
    pub base: u64,
    pub recorded: Recorded,
    pub added: Vec<Fact>,
    pub removed: Vec<Fact>,
}

/// What stands in the way of a commit: the entry, from 1, the place of a fact among those that it changed, and the place of the request
/// that this fact meets. Places count from 0. Where the entry replaces the ontology both places are 0.
#[derive(Debug, Clone, Copy, PartialEq, Eq)]
pub struct Met {
    pub entry: u64,
    pub place: usize,
    pub request: usize,
}
