use crate::replay::Replay;
use crate::serving::{difference, is_met};
use crate::trouble::Trouble;
use dl_base::{Changes, Entry, Fact, Ontology, Request, Requests, copies_of};
use read_patterns::Met;
use std::sync::Arc;
use transaction::Reply;
use update_engine::{Clash, Rules, first_clash};

impl Replay {
    /// The reply to a commit.
    pub fn commit(&mut self, editor: u32) -> Result<Reply, Trouble> {
        let Some(place) = self.place_of(editor) else {
            return Ok(Reply::NoTransaction);
        };
        let Some(begun) = self.begun.get(place) else {
            return Ok(Reply::NoTransaction);
        };
        let changes = begun.requests.iter().any(is_change);
        if changes && self.entries.len() as u64 >= self.limit {
            return Ok(Reply::HistoryFull(self.limit));
        }
        let Some(begun) = self.taken_out(editor) else {
            return Ok(Reply::NoTransaction);
        };
        if !changes {
            return Ok(Reply::ReadOnly(begun.base as u64));
        }
        if let Some(met) = self.first_met(begun.base, begun.requests.as_slice())? {
            return Ok(Reply::Conflict(met));
        }
        self.append(editor, begun.into_requests())
    }

    /// The first entry after the base that replaced the ontology or changed a fact that one of the requests meets, with that fact's place and
    /// that request's.
    fn first_met(&self, base: usize, requests: &[Request]) -> Result<Option<Met>, Trouble> {
        let rules = self.rules_at(base)?;
        for (number, entry) in self.entries.iter().enumerate().skip(base) {
            if let Some((place, request)) = self.met_in(rules, entry, requests)? {
                return Ok(Some(Met {
                    entry: number as u64 + 1,
                    place,
                    request,
                }));
            }
        }
        Ok(None)
    }

    fn met_in(
        &self,
        rules: &Rules,
        entry: &Entry,
        requests: &[Request],
    ) -> Result<Option<(usize, usize)>, Trouble> {
        if let Some(_) = &entry.replaced {
            return Ok(Some((0, 0)));
        }
        for (place, changed) in entry.changed.as_slice().iter().enumerate() {
            for (number, request) in requests.iter().enumerate() {
                if is_met(self.alloc, rules, request, &changed.fact)? {
                    return Ok(Some((place, number)));
                }
            }
        }
        Ok(None)
    }

    /// The requests run once more, over the facts that stand now, and become an entry.
    fn append(&mut self, editor: u32, requests: Vec<Request>) -> Result<Reply, Trouble> {
        let rules = self.rules_at(self.entries.len())?;
        let next = self.facts_after(rules, self.version(), requests.as_slice())?;
        let changed = difference(self.alloc, self.version(), next.as_slice())?;
        let entry = Entry {
            editor,
            number: self.number_of(editor),
            requests: Requests::of(requests),
            changed: Changes::of(changed),
            replaced: None,
        };
        let Some(last) = self.rules.last() else {
            return Err(Trouble::Unfit);
        };
        let Ok(rules) = Arc::try_clone(last) else {
            return Err(Trouble::OutOfMemory);
        };
        Ok(Reply::Committed(self.pushed(entry, next, rules)?))
    }

    fn put_in_force(
        &mut self,
        editor: u32,
        ontology: &Arc<Ontology>,
        rules: Rules,
        facts: Vec<Fact>,
    ) -> Result<Reply, Trouble> {
        let Ok(ontology) = Arc::try_clone(ontology) else {
            return Err(Trouble::OutOfMemory);
        };
        let Ok(rules) = Arc::new(self.alloc, rules) else {
            return Err(Trouble::OutOfMemory);
        };
        let entry = Entry {
            editor,
            number: self.number_of(editor),
            requests: Requests::of(Vec::new(self.alloc)),
            changed: Changes::of(Vec::new(self.alloc)),
            replaced: Some(ontology),
        };
        Ok(Reply::Replaced(self.pushed(entry, facts, rules)?))
    }

    /// How many entries the editor has.
    fn number_of(&self, editor: u32) -> u64 {
        let own = self.entries.iter().filter(|entry| entry.editor == editor);
        own.count() as u64
    }

    /// One entry more, with the facts and the rules after it. Its number, from 1.
    fn pushed(
        &mut self,
        entry: Entry,
        facts: Vec<Fact>,
        rules: Arc<Rules>,
    ) -> Result<u64, Trouble> {
        if self.entries.push(entry).is_err() || self.versions.push(facts).is_err() {
            return Err(Trouble::OutOfMemory);
        }
        match self.rules.push(rules) {
            Ok(()) => Ok(self.entries.len() as u64),
            Err(_) => Err(Trouble::OutOfMemory),
        }
    }

    /// The reply to a replacement of the ontology.
    pub fn replace(&mut self, editor: u32, ontology: &Arc<Ontology>) -> Result<Reply, Trouble> {
        if let Some(_) = self.place_of(editor) {
            return Ok(Reply::AlreadyBegun);
        }
        if self.entries.len() as u64 >= self.limit {
            return Ok(Reply::HistoryFull(self.limit));
        }
        let rules = Rules::compile(self.alloc, ontology)?;
        let facts = copies_of(self.alloc, self.version())?;
        match first_clash(&rules, facts.as_slice()) {
            Some(Clash::Alone(place)) => Ok(Reply::Alone(facts[place].copy(self.alloc)?)),
            Some(Clash::Pair(place, other)) => Ok(Reply::Pair(
                facts[place].copy(self.alloc)?,
                facts[other].copy(self.alloc)?,
            )),
            None => self.put_in_force(editor, ontology, rules, facts),
        }
    }
}

fn is_change(request: &Request) -> bool {
    match request {
        Request::Change { .. } => true,
        Request::Ask(_) => false,
    }
}
