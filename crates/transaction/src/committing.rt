ghost use Rattle.std.specs.Prelude.{◌≡◌, ◌<◌, IfOk, IfErr, length};
ghost use Rattle.dl_base.specs.Histories.{HasChange};
ghost use Rattle.transaction.specs.Holding.{BeganIn, IsCommitted};

use crate::events::Reply;
use crate::transactions::Transaction;
use dl_base::Versions;
use serial_history::History;

/// Commits the transaction of this editor, which has a change, to the history, which has room. Where memory is refused, it comes back.
pub fn committed<V: Versions + Drop>(
    history: &mut History<V>,
    editor: u32,
    transaction: Transaction<V>,
) -> Result<Reply, Transaction<V>>
    requires began { BeganIn history.old transaction }
    requires room { length history.old.entries < history.old.limit }
    requires change { HasChange transaction.requests }
    ensures ok { IfOk result (λ reply. IsCommitted history.old editor transaction reply history.new) }
    ensures refused { IfErr result (λ given. (given ≡ transaction) × (history.new ≡ history.old)) }
{
    let (base, parts) = transaction.into_parts();
    if let Some(met) = history.first_met(&parts) {
        return Ok(Reply::Conflict(met));
    }
    match history.commit(editor, parts) {
        Ok(number) => Ok(Reply::Committed(number)),
        Err(parts) => Err(Transaction::from_parts(base, parts)),
    }
}
