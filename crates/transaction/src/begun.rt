ghost use Rattle.std.specs.Prelude.{◌≡◌, ◌↔◌, ◌<◌, ◌++◌, ◌∷◌, [], All, Some, None, Err, IfOk, IfSome, OnOk, OnErr, length, map, slice_get};
ghost use Rattle.std.specs.List.{remove};
ghost use Rattle.dl_base.specs.Histories.{HasChange};
ghost use Rattle.dl_base.specs.Ontologies.{Knows, KnowsPattern};
ghost use Rattle.dl_base.specs.declared.requests.Request.TheVariants as asked;
ghost use Rattle.transaction.specs.Holding.{Held, AllBeganIn, HoldsAt, IsPlaceOf, ServesAt, PublishesAt, begun_of};
ghost use Rattle.dl_base.specs.Updates.{IsWellFormed};
ghost use Rattle.transaction.specs.Worlds.{of_editor};
ghost use Rattle.transaction.specs.declared.refusals.TxRefusal.TheVariants as refusal;
ghost use Rattle.update_engine.specs.Judging.{IsNamed};
ghost use Rattle.update_engine.specs.declared.judging.IllFormed as ill_formed_type;

use crate::committing::committed;
use crate::events::Reply;
use crate::refusals::TxRefusal;
use crate::transactions::Transaction;
use dl_base::{Fact, OutOfMemory, Pattern, Versions};
use serial_history::History;
use std::alloc::Global;
use std::marker::Model;

/// An editor, and the transaction that it has begun.
#[derive(Drop)]
struct OfEditor<V: Versions> {
    editor: u32,
    transaction: Transaction<V>,
}

impl<V: Versions> Model for OfEditor<V> {
    ghost use Rattle.transaction.specs.Holding.{Held};

    ghost Value = { Held };

    ghost view = { λ o. record { editor = o.editor; transaction = o.transaction } };
}

/// The transactions begun, each with its editor, in the order in which they began.
pub struct AllBegun<V: Versions> {
    items: Vec<OfEditor<V>>,
}

impl<V: Versions> Model for AllBegun<V> {
    ghost use Rattle.std.specs.Prelude.{List};
    ghost use Rattle.transaction.specs.Holding.{Held};

    ghost Value = { List Held };

    ghost view = { λ b. b.items.items };
}

impl<V: Versions + Drop> Drop for AllBegun<V> {
    // Written out, so that a caller's proof takes it as one call.
    fn drop(self) {
        let AllBegun { items: _items } = self;
    }
}

impl<V: Versions + Drop> AllBegun<V> {
    /// No transaction.
    pub fn new(alloc: Global) -> AllBegun<V>
        ensures { result ≡ [] }
    {
        AllBegun {
            items: Vec::new(alloc),
        }
    }

    /// The place of this editor's transaction.
    pub fn place_of(&self, editor: u32) -> Option<usize>
        ensures found { IfSome result (IsPlaceOf editor self.now) }
        ensures none { result ≡ None → of_editor editor (map begun_of self.now) ≡ None }
    {
        for place in 0..self.items.len() {
            let held = &self.items[place];
            if held.editor == editor {
                return Some(place);
            }
        }
        None
    }

    /// The transaction at this place.
    pub fn at(&self, place: usize) -> &Transaction<V>
        requires { place < length self.now }
        ensures { HoldsAt self.now place result.now }
    {
        let held = &self.items[place];
        &held.transaction
    }

    /// One transaction more.
    pub fn push(&mut self, editor: u32, transaction: Transaction<V>) -> Result<(), OutOfMemory>
        ensures ok { OnOk result (self.new ≡ self.old ++ record { editor = editor; transaction = transaction } ∷ []) }
        ensures refused { OnErr result (self.new ≡ self.old) }
    {
        self.items.push(OfEditor {
            editor,
            transaction,
        })?;
        Ok(())
    }

    /// An ask in the transaction at this place.
    pub fn ask(&mut self, place: usize, pattern: &Pattern) -> Result<Vec<Fact>, TxRefusal>
        requires place { place < length self.old }
        requires known { (h : Held) → slice_get self.old place ≡ Some h → KnowsPattern h.transaction.ontology pattern.now }
        ensures ok { IfOk result (λ answers. ServesAt self.old place (asked.Ask pattern.now) answers.items self.new) }
        ensures too_many { (h : Held) → slice_get self.old place ≡ Some h → (result ≡ Err refusal.TooManyRequests) → length h.transaction.requests ≡ 10000 }
        ensures never_ill_formed { (name : ill_formed_type.IllFormed) → ¬ (result ≡ Err (refusal.IllFormed name)) }
        ensures memory { (h : Held) → slice_get self.old place ≡ Some h → (result ≡ Err refusal.OutOfMemory) → length h.transaction.requests < 10000 }
        ensures refused { OnErr result (self.new ≡ self.old) }
    {
        let held = &mut self.items[place];
        held.transaction.ask(pattern)
    }

    /// A change in the transaction at this place.
    pub fn change(
        &mut self,
        place: usize,
        inserts: &[Fact],
        deletes: &[Fact],
    ) -> Result<Vec<Fact>, TxRefusal>
        requires place { place < length self.old }
        requires known { (h : Held) → slice_get self.old place ≡ Some h → All (Knows h.transaction.ontology) inserts.now × All (Knows h.transaction.ontology) deletes.now }
        ensures ok { IfOk result (λ lost. ServesAt self.old place (asked.Change inserts.now deletes.now) lost.items self.new) }
        ensures too_many { (h : Held) → slice_get self.old place ≡ Some h → (result ≡ Err refusal.TooManyRequests) → length h.transaction.requests ≡ 10000 }
        ensures ill_formed { (h : Held) (name : ill_formed_type.IllFormed) → slice_get self.old place ≡ Some h → (result ≡ Err (refusal.IllFormed name))
            → (length h.transaction.requests < 10000) × IsNamed h.transaction.ontology.axioms inserts.now deletes.now name }
        ensures memory { (h : Held) → slice_get self.old place ≡ Some h → (result ≡ Err refusal.OutOfMemory)
            → (length h.transaction.requests < 10000) × IsWellFormed h.transaction.ontology.axioms inserts.now deletes.now }
        ensures refused { OnErr result (self.new ≡ self.old) }
    {
        let held = &mut self.items[place];
        held.transaction.change(inserts, deletes)
    }

    /// Takes the transaction at this place out.
    pub fn remove(&mut self, place: usize) -> Transaction<V>
        requires { place < length self.old }
        ensures taken { HoldsAt self.old place result }
        ensures others { self.new ≡ remove self.old place }
    {
        let OfEditor {
            editor: _editor,
            transaction,
        } = self.items.remove(place);
        transaction
    }

    /// Ends the transaction at this place, which has a change, by a commit to the history, which has room. Where memory is refused, it stands
    /// at its place again.
    pub fn commit(&mut self, place: usize, history: &mut History<V>) -> Result<Reply, OutOfMemory>
        requires place { place < length self.old }
        requires began { AllBeganIn history.old self.old }
        requires room { length history.old.entries < history.old.limit }
        requires change { (h : Held) → slice_get self.old place ≡ Some h → HasChange h.transaction.requests }
        ensures ok { IfOk result (λ reply. PublishesAt history.old self.old place reply history.new × (self.new ≡ remove self.old place)) }
        ensures refused { OnErr result ((self.new ≡ self.old) × (history.new ≡ history.old)) }
    {
        let OfEditor {
            editor,
            transaction,
        } = self.items.remove(place);
        match committed(history, editor, transaction) {
            Ok(reply) => Ok(reply),
            Err(transaction) => {
                let again = OfEditor {
                    editor,
                    transaction,
                };
                self.items.insert(place, again)?;
                Err(OutOfMemory)
            }
        }
    }
}
