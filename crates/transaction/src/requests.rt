ghost use Rattle.std.specs.Prelude.{◌≡◌, ◌↔◌, ◌++◌, ◌∷◌, [], Contains, IsTrue, IfOk, OnOk, OnErr};
ghost use Rattle.dl_base.specs.Histories.{HasChange};
ghost use Rattle.dl_base.specs.Ontologies.{Knows};
ghost use Rattle.dl_base.specs.Transactions.{IsAnswer};
ghost use Rattle.dl_base.specs.Updates.{Lists};
ghost use Rattle.dl_base.specs.declared.requests.Request.TheVariants as asked;
ghost use Rattle.dl_base.specs.declared.statements.Fact as fact_type;
ghost use Rattle.fact_delta.specs.Deltas.{standing};
ghost use Rattle.transaction.specs.Serving.{IsChange};

use dl_base::{Fact, Facts, OutOfMemory, Pattern, Request, Steps, Versions, copies_of};
use fact_delta::Delta;
use instance_query::answers;
use read_patterns::Recorded;
use std::alloc::Global;
use std::sync::ledger::{Blank, Ledger};
use update_engine::Rules;

/// The answers over the stored facts, whose look-ups nobody counts.
pub fn answered<V: Versions + Drop, L: Ledger>(
    alloc: Global,
    rules: &Rules,
    stored: &Delta<V>,
    pattern: &Pattern,
    blank: Blank,
) -> Result<Vec<Fact>, OutOfMemory>
    requires name { blank.name ≡ L.name }
    requires parts { blank.parts ≡ L.parts }
    requires one { blank.parts ≡ 1 }
    requires known { (f : fact_type.Fact) → Contains (standing stored.now) f → Knows rules.now f }
    ensures { IfOk result (λ found. Lists (IsAnswer rules.now.axioms (standing stored.now) pattern.now) found.items) }
{
    let mut steps: Steps<L> = Steps::new(blank);
    let found = answers(alloc, rules.entailers(), stored, pattern, &mut steps)?;
    Ok(found)
}

/// Records a change.
pub fn keep_change(
    alloc: Global,
    recorded: &mut Recorded,
    inserts: &[Fact],
    deletes: &[Fact],
) -> Result<(), OutOfMemory>
    ensures ok { OnOk result (recorded.new ≡ recorded.old ++ asked.Change inserts.now deletes.now ∷ []) }
    ensures refused { OnErr result (recorded.new ≡ recorded.old) }
{
    let request = change_of(alloc, inserts, deletes)?;
    keep(recorded, request)
}

/// The change of these insertions and deletions.
fn change_of(alloc: Global, inserts: &[Fact], deletes: &[Fact]) -> Result<Request, OutOfMemory>
    ensures { IfOk result (λ request. request ≡ asked.Change inserts.now deletes.now) }
{
    Ok(Request::Change {
        inserts: Facts::of(copies_of(alloc, inserts)?),
        deletes: Facts::of(copies_of(alloc, deletes)?),
    })
}

/// Records the request.
pub fn keep(recorded: &mut Recorded, request: Request) -> Result<(), OutOfMemory>
    ensures ok { OnOk result (recorded.new ≡ recorded.old ++ request ∷ []) }
    ensures refused { OnErr result (recorded.new ≡ recorded.old) }
{
    match recorded.add(request) {
        Ok(()) => Ok(()),
        Err(_) => Err(OutOfMemory),
    }
}

/// Whether one of the requests is a change.
pub fn has_change(requests: &[Request]) -> bool
    ensures { IsTrue result ↔ HasChange requests.now }
{
    for request in requests {
        if is_change(request) {
            return true;
        }
    }
    false
}

fn is_change(request: &Request) -> bool
    ensures { IsTrue result ↔ IsChange request.now }
{
    match request {
        Request::Change { .. } => true,
        Request::Ask(_) => false,
    }
}
