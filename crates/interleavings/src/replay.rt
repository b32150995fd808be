use crate::acts::Act;
use crate::serving::served;
use crate::trouble::Trouble;
use dl_base::{Entry, Fact, Facts, OutOfMemory, Request, copies_of};
use std::alloc::Global;
use std::sync::Arc;
use transaction::{MOST_REQUESTS, Reply};
use update_engine::Rules;

/// A transaction begun: its editor, the number of its base, and its requests.
pub struct Begun {
    pub editor: u32,
    pub base: usize,
    pub requests: Vec<Request>,
}

impl Drop for Begun {
    // Written out, so that a caller's proof takes it as one call.
    fn drop(self) {
        let Begun {
            editor: _editor,
            base: _base,
            requests: _requests,
        } = self;
    }
}

impl Begun {
    /// Its requests, when it has ended.
    pub fn into_requests(self) -> Vec<Request> {
        let Begun {
            editor: _editor,
            base: _base,
            requests,
        } = self;
        requests
    }
}

/// A plain history: the facts of each version and the rules in force there are kept whole, and each reply is found by running the
/// transaction's requests again from the facts of its base.
pub struct Replay {
    pub(crate) alloc: Global,
    pub(crate) limit: u64,
    pub(crate) versions: Vec<Vec<Fact>>,
    pub(crate) rules: Vec<Arc<Rules>>,
    pub(crate) entries: Vec<Entry>,
    pub(crate) begun: Vec<Begun>,
}

impl Drop for Replay {
    // Written out, so that a caller's proof takes it as one call.
    fn drop(self) {
        let Replay {
            alloc: _alloc,
            limit: _limit,
            versions: _versions,
            rules: _rules,
            entries: _entries,
            begun: _begun,
        } = self;
    }
}

impl Replay {
    /// Over these opening facts.
    pub fn start(
        alloc: Global,
        rules: Arc<Rules>,
        facts: Vec<Fact>,
        limit: u64,
    ) -> Result<Replay, OutOfMemory> {
        let mut versions = Vec::new(alloc);
        versions.push(facts)?;
        let mut all = Vec::new(alloc);
        all.push(rules)?;
        Ok(Replay {
            alloc,
            limit,
            versions,
            rules: all,
            entries: Vec::new(alloc),
            begun: Vec::new(alloc),
        })
    }

    pub fn entries(&self) -> &[Entry] {
        self.entries.as_slice()
    }

    /// The facts that stand after all entries.
    pub fn version(&self) -> &[Fact] {
        match self.versions.last() {
            Some(facts) => facts.as_slice(),
            None => &[],
        }
    }

    /// The reply to what the editor does.
    pub fn reply(&mut self, editor: u32, act: &Act) -> Result<Reply, Trouble> {
        match act {
            Act::Begin => self.begin(editor),
            Act::Ask(pattern) => {
                let request = Request::Ask(pattern.copy(self.alloc)?);
                self.request(editor, request)
            }
            Act::Change(inserts, deletes) => {
                let request = Request::Change {
                    inserts: inserts.copy(self.alloc)?,
                    deletes: deletes.copy(self.alloc)?,
                };
                self.request(editor, request)
            }
            Act::Commit => self.commit(editor),
            Act::Abort => match self.taken_out(editor) {
                Some(_) => Ok(Reply::Aborted),
                None => Ok(Reply::NoTransaction),
            },
            Act::Replace(ontology) => self.replace(editor, ontology),
        }
    }

    pub(crate) fn place_of(&self, editor: u32) -> Option<usize> {
        self.begun.iter().position(|begun| begun.editor == editor)
    }

    pub(crate) fn taken_out(&mut self, editor: u32) -> Option<Begun> {
        let place = self.place_of(editor)?;
        if place < self.begun.len() {
            return Some(self.begun.remove(place));
        }
        None
    }

    fn begin(&mut self, editor: u32) -> Result<Reply, Trouble> {
        if let Some(_) = self.place_of(editor) {
            return Ok(Reply::AlreadyBegun);
        }
        let base = self.entries.len();
        let begun = Begun {
            editor,
            base,
            requests: Vec::new(self.alloc),
        };
        match self.begun.push(begun) {
            Ok(()) => Ok(Reply::Begun(base as u64)),
            Err(_) => Err(Trouble::OutOfMemory),
        }
    }

    /// The facts after the requests, from these facts on.
    pub(crate) fn facts_after(
        &self,
        rules: &Rules,
        facts: &[Fact],
        requests: &[Request],
    ) -> Result<Vec<Fact>, Trouble> {
        let mut facts = copies_of(self.alloc, facts)?;
        for request in requests {
            match served(self.alloc, rules, facts.as_slice(), request)? {
                Ok(served) => facts = served.facts,
                Err(_) => return Err(Trouble::Unfit),
            }
        }
        Ok(facts)
    }

    /// The rules in force at the version.
    pub(crate) fn rules_at(&self, version: usize) -> Result<&Rules, Trouble> {
        match self.rules.get(version) {
            Some(rules) => Ok(rules),
            None => Err(Trouble::Unfit),
        }
    }

    /// The facts that the transaction stands at.
    fn stored(&self, begun: &Begun) -> Result<Vec<Fact>, Trouble> {
        let rules = self.rules_at(begun.base)?;
        match self.versions.get(begun.base) {
            Some(facts) => self.facts_after(rules, facts.as_slice(), begun.requests.as_slice()),
            None => Err(Trouble::Unfit),
        }
    }

    /// The reply to the request in the transaction at this place.
    fn told(&self, place: usize, request: &Request) -> Result<Reply, Trouble> {
        let Some(begun) = self.begun.get(place) else {
            return Ok(Reply::NoTransaction);
        };
        if begun.requests.len() >= MOST_REQUESTS {
            return Ok(Reply::TooManyRequests);
        }
        let facts = self.stored(begun)?;
        told(
            self.alloc,
            self.rules_at(begun.base)?,
            facts.as_slice(),
            request,
        )
    }

    /// One request more in the transaction at this place.
    fn record(&mut self, place: usize, request: Request) -> Result<(), Trouble> {
        let Some(begun) = self.begun.get_mut(place) else {
            return Err(Trouble::Unfit);
        };
        match begun.requests.push(request) {
            Ok(()) => Ok(()),
            Err(_) => Err(Trouble::OutOfMemory),
        }
    }

    fn request(&mut self, editor: u32, request: Request) -> Result<Reply, Trouble> {
        let Some(place) = self.place_of(editor) else {
            return Ok(Reply::NoTransaction);
        };
        let reply = self.told(place, &request)?;
        match &reply {
            Reply::Answers(_) | Reply::Lost(_) => self.record(place, request)?,
            _ => {}
        }
        Ok(reply)
    }
}

/// The reply to the request over the facts.
fn told(alloc: Global, rules: &Rules, facts: &[Fact], request: &Request) -> Result<Reply, Trouble> {
    let told = match served(alloc, rules, facts, request)? {
        Ok(made) => Facts::of(made.told),
        Err(name) => return Ok(Reply::IllFormed(name)),
    };
    match request {
        Request::Ask(_) => Ok(Reply::Answers(told)),
        Request::Change { .. } => Ok(Reply::Lost(told)),
    }
}
