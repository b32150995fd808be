ghost use Rattle.std.specs.Prelude.{◌≡◌, ◌↔◌, ◌∷◌, [], IsTrue, Contains};
ghost use Rattle.dl_base.specs.Clash.{HasClash};
ghost use Rattle.dl_base.specs.Derivation.{InClosure};
ghost use Rattle.dl_base.specs.Transactions.{IsMetBy, IsWell};
ghost use Rattle.dl_base.specs.Updates.{IsWellFormed, Meets};
ghost use Rattle.dl_base.specs.declared.statements.Fact as fact_type;

use conflict_rules::Conflicts;
use dl_base::{Fact, Request};
use entail_guards::Entailers;

/// Whether the fact meets the request.
pub fn is_met(conflicts: &Conflicts, entailers: &Entailers, request: &Request, fact: &Fact) -> bool
    requires same { entailers.now ≡ conflicts.now }
    requires well { IsWell conflicts.now.axioms request.now }
    requires alone { ¬ HasClash conflicts.now.axioms (fact.now ∷ []) }
    ensures { IsTrue result ↔ IsMetBy conflicts.now.axioms fact.now request.now }
{
    match request {
        Request::Change { inserts, deletes } => meets_change(
            conflicts,
            entailers,
            inserts.as_slice(),
            deletes.as_slice(),
            fact,
        ),
        Request::Ask(pattern) => entailers.entails_match(fact, pattern),
    }
}

/// Whether the fact can't stay beside the insertions, or entails a deletion.
fn meets_change(
    conflicts: &Conflicts,
    entailers: &Entailers,
    inserts: &[Fact],
    deletes: &[Fact],
    fact: &Fact,
) -> bool
    requires same { entailers.now ≡ conflicts.now }
    requires well { IsWellFormed conflicts.now.axioms inserts.now deletes.now }
    requires alone { ¬ HasClash conflicts.now.axioms (fact.now ∷ []) }
    ensures { IsTrue result ↔ Meets conflicts.now.axioms inserts.now deletes.now fact.now }
{
    if clashes_with(conflicts, inserts, fact) {
        return true;
    }
    entails_one(entailers, deletes, fact)
}

fn clashes_with(conflicts: &Conflicts, inserts: &[Fact], fact: &Fact) -> bool
    requires consistent { ¬ HasClash conflicts.now.axioms inserts.now }
    requires alone { ¬ HasClash conflicts.now.axioms (fact.now ∷ []) }
    ensures { IsTrue result ↔ HasClash conflicts.now.axioms (fact.now ∷ inserts.now) }
{
    for inserted in inserts {
        if conflicts.pair(fact, inserted) {
            return true;
        }
    }
    false
}

fn entails_one(entailers: &Entailers, deletes: &[Fact], fact: &Fact) -> bool
    ensures { IsTrue result ↔ ((d : fact_type.Fact) × Contains deletes.now d × InClosure entailers.now.axioms (fact.now ∷ []) d) }
{
    for deleted in deletes {
        if entailers.entails(fact, deleted) {
            return true;
        }
    }
    false
}
