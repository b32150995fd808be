ghost use Rattle.std.specs.Prelude.{◌≡◌, All, Contains, IfSome};
ghost use Rattle.std.specs.Arc.{arc_value};
ghost use Rattle.dl_base.specs.Clash.{IsConsistent};
ghost use Rattle.dl_base.specs.Ontologies.{Theory, Knows, KnowsPattern};
ghost use Rattle.dl_base.specs.declared.statements.Fact as fact_type;

use crate::bases::Base;
use dl_base::{Fact, Pattern};
use fact_index::Whole;
use loading::Opened;
use std::alloc::Global;
use std::marker::Model;
use transaction::TxRefusal;
use update_read::{ReadUpdate, read_update};

/// A base, and what each transaction over it does: a change and an ask.
pub struct Turns {
    base: Base<Whole>,
    update: ReadUpdate,
    pattern: Pattern,
}

impl Model for Turns {
    ghost use Rattle.dl_base.specs.Ontologies.{Theory, KnowsPattern};
    ghost use Rattle.update_read.specs.Outcomes.{KnowsUpdate};

    ghost Value = { Theory };

    ghost view = { λ t. t.base };

    ghost invariant = { λ t. KnowsUpdate t.base t.update × KnowsPattern t.base t.pattern };
}

impl Drop for Turns {
    // Written out, so that a caller's proof takes it as one call.
    fn drop(self) {
        let Turns {
            base: _base,
            update: _update,
            pattern: _pattern,
        } = self;
    }
}

impl Turns {
    /// Over the opened facts, with the update of this text. `None` where it is refused, inserts no fact of a class, or memory is wanting.
    pub fn of(alloc: Global, opened: Opened, text: &[u8]) -> Option<Turns>
        requires rules { arc_value opened.rules ≡ opened.ontology }
        requires consistent { IsConsistent opened.ontology.axioms opened.facts.items }
        requires known { (f : fact_type.Fact) → Contains opened.facts.items f → Knows opened.ontology f }
    {
        let Ok(update) = read_update(alloc, text, &opened.ontology) else {
            return None;
        };
        let pattern = asked(alloc, update.inserts.as_slice())?;
        match Base::of(alloc, opened) {
            Ok(base) => Some(Turns {
                base,
                update,
                pattern,
            }),
            Err(_) => None,
        }
    }

    /// One transaction: it makes the change, asks, and is given up. How many answers there are.
    pub fn turn(&self, alloc: Global) -> Result<usize, TxRefusal> {
        let mut transaction = self.base.begun(alloc)?;
        transaction.change(
            self.update.inserts.as_slice(),
            self.update.deletes.as_slice(),
        )?;
        let answers = transaction.ask(&self.pattern)?;
        Ok(answers.len())
    }
}

/// The ask for the first of the facts that is of a class.
fn asked(alloc: Global, facts: &[Fact]) -> Option<Pattern>
    ensures { (theory : Theory) → All (Knows theory) facts.now → IfSome result (KnowsPattern theory) }
{
    for fact in facts {
        if let Fact::Class(class, name) = fact {
            return match name.copy(alloc) {
                Ok(name) => Some(Pattern::ClassOf(*class, name)),
                Err(_) => None,
            };
        }
    }
    None
}
