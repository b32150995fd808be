ghost use Rattle.std.specs.Prelude.{◌≡◌, ◌↔◌, ◌≤◌, [], Contains, IsTrue, IfOk, OnErr, length, map};
ghost use Rattle.std.specs.Arc.{arc_value};
ghost use Rattle.dl_base.specs.Clash.{IsConsistent};
ghost use Rattle.dl_base.specs.FactOrder.{AreSorted};
ghost use Rattle.dl_base.specs.Histories.{IsLegal, IsVersion, in_force};
ghost use Rattle.dl_base.specs.Ontologies.{Knows};
ghost use Rattle.dl_base.specs.Updates.{Lists};
ghost use Rattle.dl_base.specs.declared.statements.Fact as fact_type;
ghost use Rattle.transaction.specs.declared.events.Event.TheVariants as event;

use crate::begun::AllBegun;
use crate::events::{Event, Reply};
use crate::refusals::TxRefusal;
use crate::transactions::Transaction;
use dl_base::{Entry, Fact, Facts, Ontology, OutOfMemory, Pattern, Versions};
use serial_history::{History, Replacing};
use std::alloc::Global;
use std::marker::Model;
use std::sync::Arc;
use update_engine::Rules;

/// The pure core of the server: an opening, the history of entries since, and the transactions that editors have begun.
pub struct World<V: Versions> {
    alloc: Global,
    history: History<V>,
    begun: AllBegun<V>,
}

impl<V: Versions> Model for World<V> {
    ghost use Rattle.std.specs.Prelude.{map};
    ghost use Rattle.transaction.specs.Holding.{AllBeganIn, begun_of};
    ghost use Rattle.transaction.specs.Worlds.{State};

    ghost Value = { State };

    ghost view = { λ w. record { opening = w.history.opening; facts = w.history.facts; limit = w.history.limit; entries = w.history.entries; begun = map begun_of w.begun } };

    ghost invariant = { λ w. AllBeganIn w.history w.begun };
}

impl<V: Versions + Drop> Drop for World<V> {
    // Written out, so that a caller's proof takes it as one call.
    fn drop(self) {
        let World {
            alloc: _alloc,
            history: _history,
            begun: _begun,
        } = self;
    }
}

impl<V: Versions + Drop> World<V> {
    ghost use Rattle.transaction.specs.Worlds.{Begun, Has, HasNone, KnowsEvent, StepsTo, TakesMemory, theory_of};

    /// No transaction so far, over these facts.
    pub fn start(
        alloc: Global,
        rules: Arc<Rules>,
        facts: Vec<Fact>,
        limit: u64,
    ) -> Result<World<V>, OutOfMemory>
        requires consistent { IsConsistent (arc_value rules).axioms facts.items }
        requires known { (f : fact_type.Fact) → Contains facts.items f → Knows (arc_value rules) f }
        ensures opening { IfOk result (λ world. (world.opening ≡ arc_value rules) × Lists (Contains facts.items) world.facts) }
        ensures limit { IfOk result (λ world. world.limit ≡ limit) }
        ensures nothing { IfOk result (λ world. (world.entries ≡ []) × (world.begun ≡ [])) }
    {
        let opening: V = Versions::of(alloc, facts)?;
        let history = History::start(alloc, rules, opening, limit)?;
        Ok(World {
            alloc,
            history,
            begun: AllBegun::new(alloc),
        })
    }

    /// The entries of the history, the oldest first.
    pub fn entries(&self) -> &[Arc<Entry>]
        ensures entries { map arc_value result.now ≡ self.now.entries }
        ensures legal { IsLegal self.now.opening self.now.facts self.now.entries }
    {
        self.history.entries()
    }

    /// The facts that stand after all entries.
    pub fn version(&self) -> &V
        ensures stands { IsVersion self.now.facts self.now.entries (V.facts result.now) }
        ensures sorted { AreSorted (V.facts result.now) }
        ensures consistent { IsConsistent (in_force self.now.opening self.now.entries).axioms (V.facts result.now) }
        ensures known { (f : fact_type.Fact) → Contains (V.facts result.now) f → Knows (in_force self.now.opening self.now.entries) f }
    {
        let version = self.history.version();
        let _facts = version.count();
        version
    }

    /// The rules of the editor's transaction, and those in force where it has none.
    pub fn rules(&self, editor: u32) -> &Arc<Rules>
        ensures own { (b : Begun) → Has self.now editor b → arc_value result.now ≡ theory_of self.now b }
        ensures now { HasNone self.now editor → arc_value result.now ≡ in_force self.now.opening self.now.entries }
    {
        match self.begun.place_of(editor) {
            Some(place) => self.begun.at(place).rules(),
            None => self.history.rules(),
        }
    }

    /// The rules of the ontology in force now.
    pub fn in_force(&self) -> &Arc<Rules>
        ensures { arc_value result.now ≡ in_force self.now.opening self.now.entries }
    {
        self.history.rules()
    }

    /// Whether there are as many entries as there may be.
    fn is_full(&self) -> bool
        ensures { IsTrue result ↔ (self.now.limit ≤ length self.now.entries) }
    {
        self.history.length() >= self.history.limit()
    }

    /// One event. Where memory is refused, nothing has changed. An event that the begun transactions, their requests and the number of entries
    /// answer already takes no memory, and neither does a change that contradicts itself.
    pub fn step(&mut self, event: Event) -> Result<Reply, OutOfMemory>
        requires known { KnowsEvent self.old event }
        ensures ok { IfOk result (λ reply. StepsTo self.old event reply self.new) }
        ensures memory { OnErr result (TakesMemory self.old event) }
        ensures refused { OnErr result (self.new ≡ self.old) }
    {
        match event {
            Event::Begin(editor) => self.begin(editor),
            Event::Ask(editor, pattern) => self.ask(editor, pattern),
            Event::Change(editor, inserts, deletes) => self.change(editor, inserts, deletes),
            Event::Commit(editor) => self.commit(editor),
            Event::Abort(editor) => Ok(self.abort(editor)),
            Event::Replace(editor, ontology) => self.replace(editor, ontology),
        }
    }

    fn begin(&mut self, editor: u32) -> Result<Reply, OutOfMemory>
        ensures ok { IfOk result (λ reply. StepsTo self.old (event.Begin editor) reply self.new) }
        ensures memory { OnErr result (TakesMemory self.old (event.Begin editor)) }
        ensures refused { OnErr result (self.new ≡ self.old) }
    {
        if let Some(_) = self.begun.place_of(editor) {
            return Ok(Reply::AlreadyBegun);
        }
        let version = self.history.version().share()?;
        let rules = Arc::try_clone(self.history.rules())?;
        let base = self.history.length();
        let transaction = Transaction::at(self.alloc, rules, version, base);
        self.begun.push(editor, transaction)?;
        Ok(Reply::Begun(base))
    }

    fn ask(&mut self, editor: u32, pattern: Pattern) -> Result<Reply, OutOfMemory>
        requires { KnowsEvent self.old (event.Ask editor pattern) }
        ensures ok { IfOk result (λ reply. StepsTo self.old (event.Ask editor pattern) reply self.new) }
        ensures memory { OnErr result (TakesMemory self.old (event.Ask editor pattern)) }
        ensures refused { OnErr result (self.new ≡ self.old) }
    {
        let Some(place) = self.begun.place_of(editor) else {
            return Ok(Reply::NoTransaction);
        };
        match self.begun.ask(place, &pattern) {
            Ok(answers) => Ok(Reply::Answers(Facts::of(answers))),
            Err(TxRefusal::TooManyRequests) => Ok(Reply::TooManyRequests),
            // An ask isn't ill-formed.
            Err(TxRefusal::IllFormed(_)) => Err(OutOfMemory),
            Err(TxRefusal::OutOfMemory) => Err(OutOfMemory),
        }
    }

    fn change(&mut self, editor: u32, inserts: Facts, deletes: Facts) -> Result<Reply, OutOfMemory>
        requires { KnowsEvent self.old (event.Change editor inserts deletes) }
        ensures ok { IfOk result (λ reply. StepsTo self.old (event.Change editor inserts deletes) reply self.new) }
        ensures memory { OnErr result (TakesMemory self.old (event.Change editor inserts deletes)) }
        ensures refused { OnErr result (self.new ≡ self.old) }
    {
        let Some(place) = self.begun.place_of(editor) else {
            return Ok(Reply::NoTransaction);
        };
        match self
            .begun
            .change(place, inserts.as_slice(), deletes.as_slice())
        {
            Ok(lost) => Ok(Reply::Lost(Facts::of(lost))),
            Err(TxRefusal::TooManyRequests) => Ok(Reply::TooManyRequests),
            Err(TxRefusal::IllFormed(name)) => Ok(Reply::IllFormed(name)),
            Err(TxRefusal::OutOfMemory) => Err(OutOfMemory),
        }
    }

    fn commit(&mut self, editor: u32) -> Result<Reply, OutOfMemory>
        ensures ok { IfOk result (λ reply. StepsTo self.old (event.Commit editor) reply self.new) }
        ensures memory { OnErr result (TakesMemory self.old (event.Commit editor)) }
        ensures refused { OnErr result (self.new ≡ self.old) }
    {
        let Some(place) = self.begun.place_of(editor) else {
            return Ok(Reply::NoTransaction);
        };
        if !self.begun.at(place).has_change() {
            let base = self.begun.remove(place).finish();
            return Ok(Reply::ReadOnly(base));
        }
        if self.is_full() {
            return Ok(Reply::HistoryFull(self.history.limit()));
        }
        self.begun.commit(place, &mut self.history)
    }

    fn abort(&mut self, editor: u32) -> Reply
        ensures { StepsTo self.old (event.Abort editor) result self.new }
    {
        let Some(place) = self.begun.place_of(editor) else {
            return Reply::NoTransaction;
        };
        let _ended = self.begun.remove(place);
        Reply::Aborted
    }

    fn replace(&mut self, editor: u32, ontology: Arc<Ontology>) -> Result<Reply, OutOfMemory>
        requires { KnowsEvent self.old (event.Replace editor ontology) }
        ensures ok { IfOk result (λ reply. StepsTo self.old (event.Replace editor ontology) reply self.new) }
        ensures memory { OnErr result (TakesMemory self.old (event.Replace editor ontology)) }
        ensures refused { OnErr result (self.new ≡ self.old) }
    {
        if let Some(_) = self.begun.place_of(editor) {
            return Ok(Reply::AlreadyBegun);
        }
        if self.is_full() {
            return Ok(Reply::HistoryFull(self.history.limit()));
        }
        let rules = Arc::new(self.alloc, Rules::compile(self.alloc, &ontology)?)?;
        match self.history.replace(editor, ontology, rules) {
            Replacing::Replaced(number) => Ok(Reply::Replaced(number)),
            Replacing::Full => Ok(Reply::HistoryFull(self.history.limit())),
            Replacing::Alone(fact) => Ok(Reply::Alone(fact)),
            Replacing::Pair(first, second) => Ok(Reply::Pair(first, second)),
            Replacing::OutOfMemory => Err(OutOfMemory),
        }
    }
}

#[cfg(test)]
mod replacements;
#[cfg(test)]
mod replies;
#[cfg(test)]
mod steps;
#[cfg(test)]
mod tests;
