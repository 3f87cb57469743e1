//! The tables in which a node's role keeps transactions, by their identifiers.
ghost use Rattle.std.specs.BTreeMap as tree;
ghost use Rattle.std.specs.Prelude.{◌≡◌, None, Some, OnErr, OnOk, if◌then◌else◌};
ghost use Rattle.status.specs.Id.{id_cmp, same_id};
ghost use Rattle.status.specs.declared.id.TransactionId.{TransactionId};

use status::TransactionId;
use std::collections::BTreeMap;
use units::NoMemory;

/// Puts an entry for the transaction into the table, in place of the one that it had. After `NoMemory` nothing has
/// changed.
pub fn put<T: Drop>(
    table: &mut BTreeMap<TransactionId, T>,
    id: TransactionId,
    kept: T,
) -> Result<(), NoMemory>
    ensures ok { OnOk result ((t : TransactionId)
        → tree.get id_cmp table.new t ≡ (if same_id id t then Some kept else tree.get id_cmp table.old t)) }
    ensures err { OnErr result (table.new.entries ≡ table.old.entries) }
{
    table.insert(id, kept)?;
    Ok(())
}

/// Removes the transaction from the table.
pub fn take_out<T: Drop>(table: &mut BTreeMap<TransactionId, T>, id: TransactionId)
    ensures { (t : TransactionId)
        → tree.get id_cmp table.new t ≡ (if same_id id t then None else tree.get id_cmp table.old t) }
{
    table.remove(&id);
}
