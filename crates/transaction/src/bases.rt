ghost use Rattle.std.specs.Prelude.{◌≡◌};
ghost use Rattle.std.specs.Arc.{arc_value};
ghost use Rattle.fact_delta.specs.Deltas.{standing};

use dl_base::Versions;
use fact_delta::Delta;
use std::alloc::Global;
use std::marker::Model;
use std::sync::Arc;
use update_engine::Rules;

/// What remains of a transaction beside its parts: its rules, and its stored facts over the version where it began.
pub struct Base<V: Versions> {
    alloc: Global,
    rules: Arc<Rules>,
    stored: Delta<V>,
}

impl<V: Versions> Model for Base<V> {
    ghost use Rattle.std.specs.Arc.{arc_value};
    ghost use Rattle.fact_delta.specs.Deltas.{standing};
    ghost use Rattle.transaction.specs.Serving.{Rest};

    ghost Value = { Rest };

    ghost view = { λ b. record { ontology = arc_value b.rules; base = b.stored.base; stored = standing b.stored } };
}

impl<V: Versions + Drop> Drop for Base<V> {
    // Written out, so that a caller's proof takes it as one call.
    fn drop(self) {
        let Base {
            alloc: _alloc,
            rules: _rules,
            stored: _stored,
        } = self;
    }
}

impl<V: Versions + Drop> Base<V> {
    pub(crate) fn of(alloc: Global, rules: Arc<Rules>, stored: Delta<V>) -> Base<V>
        ensures { result ≡ record { ontology = arc_value rules; base = stored.base; stored = standing stored } }
    {
        Base {
            alloc,
            rules,
            stored,
        }
    }

    pub(crate) fn opened(self) -> (Global, Arc<Rules>, Delta<V>)
        ensures { self ≡ record { ontology = arc_value result.1; base = result.2.base; stored = standing result.2 } }
    {
        let Base {
            alloc,
            rules,
            stored,
        } = self;
        (alloc, rules, stored)
    }
}
