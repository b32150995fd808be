ghost use Rattle.std.specs.Prelude.{◌≡◌, ◌↔◌, ◌++◌, ◌∷◌, [], All, OnOk, IfErr, IfSome, None, length};
ghost use Rattle.dl_base.specs.Clash.{HasClash};
ghost use Rattle.dl_base.specs.Transactions.{IsWell};
ghost use Rattle.read_patterns.specs.Meeting.{IsFirst, MeetsNone};

use crate::meeting::is_met;
use conflict_rules::Conflicts;
use dl_base::{Fact, Request, Requests};
use entail_guards::Entailers;
use std::alloc::Global;
use std::marker::Model;

/// The requests of a transaction, in order, seen as their list.
#[derive(Debug, Drop)]
pub struct Recorded {
    items: Vec<Request>,
}

impl Model for Recorded {
    ghost use Rattle.std.specs.Prelude.{List};
    ghost use Rattle.dl_base.specs.declared.requests.Request.{Request};

    ghost Value = { List Request };

    ghost view = { λ r. r.items.items };
}

impl Recorded {
    /// No request. It takes no memory.
    pub fn new(alloc: Global) -> Recorded
        ensures { result ≡ [] }
    {
        Recorded {
            items: Vec::new(alloc),
        }
    }

    /// These requests.
    pub fn of(requests: Requests) -> Recorded
        ensures { result ≡ requests }
    {
        Recorded {
            items: requests.into_vec(),
        }
    }

    /// The requests, which an entry keeps.
    pub fn into_requests(self) -> Requests
        ensures { result ≡ self }
    {
        let Recorded { items } = self;
        Requests::of(items)
    }

    pub fn requests(&self) -> &[Request]
        ensures { result.now ≡ self.now }
    {
        self.items.as_slice()
    }

    /// How many there are.
    pub fn len(&self) -> usize
        ensures { result ≡ length self.now }
    {
        self.items.len()
    }

    /// One request more. Where memory is refused, the request comes back.
    pub fn add(&mut self, request: Request) -> Result<(), Request>
        ensures ok { OnOk result (self.new ≡ self.old ++ request ∷ []) }
        ensures refused { IfErr result (λ given. (given ≡ request) × (self.new ≡ self.old)) }
    {
        match self.items.push(request) {
            Ok(()) => Ok(()),
            Err(failed) => Err(failed.value),
        }
    }

    /// The place of the first request that the fact meets: a change that the fact can't stay beside, or an ask that it answers. `None` where it
    /// meets none. It takes no memory.
    pub fn meets(&self, conflicts: &Conflicts, entailers: &Entailers, fact: &Fact) -> Option<usize>
        requires same { entailers.now ≡ conflicts.now }
        requires well { All (IsWell conflicts.now.axioms) self.now }
        requires alone { ¬ HasClash conflicts.now.axioms (fact.now ∷ []) }
        ensures first { IfSome result (IsFirst conflicts.now.axioms self.now fact.now) }
        ensures none { (result ≡ None) ↔ MeetsNone conflicts.now.axioms self.now fact.now }
    {
        let requests = self.requests();
        for place in 0..requests.len() {
            if is_met(conflicts, entailers, &requests[place], fact) {
                return Some(place);
            }
        }
        None
    }
}
