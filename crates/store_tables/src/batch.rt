//! Appending: a whole batch of bodies in one transaction.
ghost use Rattle.std.specs.Prelude.{◌≡◌, ◌∷◌, [], ◌⊎◌, length, OnOk, OnErr, IfErr, IsTrue, false, ◌+◌, ◌^◌, ◌<◌, map, Some, Err};
ghost use Rattle.sqlite_disk.specs.Disk.{MoreFaults};
ghost use Rattle.sqlite.specs.State.{HasCleanDisk, IsUnchanged, KeepsCommit, Survives};
ghost use Rattle.sqlite.specs.Held.{state};
ghost use Rattle.sqlite.specs.Tree.{Trees};
ghost use Rattle.stores.specs.Faults.{is_device_fault};
ghost use Rattle.store_tables.specs.SqlFaults.{store_fault_of};
ghost use Rattle.stores.specs.Bodies.{items};
ghost use Rattle.store_tables.specs.Rooms.{IsRefused, HasNoRoom};
ghost use Rattle.store_tables.specs.Held.{slots_in, IsReady, IsInside, HasMore, HasAllOrNone};

use crate::fault::fault_of;
use sqlite::types::ValueRef;
use sqlite::{Alter, Connection, Error as SqlError, Transaction};
use stores::StoreFault;

/// Inserts one more body, at the place after the last one, within the transaction.
fn put<S: Alter>(tx: &mut Transaction<'_, S>, place: u64, body: &[u8]) -> Result<(), SqlError>
    requires small { place < 2 ^ 63 }
    requires inside { HasCleanDisk (state S.Store tx.old.conn.now) → IsInside (state S.Store tx.old.conn.now) }
    requires place { HasCleanDisk (state S.Store tx.old.conn.now)
        → place ≡ length (slots_in (state S.Store tx.old.conn.now).now.trees) }
    ensures same_reference { tx.new.conn.ghost_name ≡ tx.old.conn.ghost_name }
    ensures inside { HasCleanDisk (state S.Store tx.new.conn.now)
        → OnOk result (IsInside (state S.Store tx.new.conn.now)) }
    ensures more { HasCleanDisk (state S.Store tx.new.conn.now)
        → OnOk result (HasMore (state S.Store tx.old.conn.now).now.trees (body.now ∷ [])
        (state S.Store tx.new.conn.now).now.trees) }
    ensures kept { HasCleanDisk (state S.Store tx.new.conn.now)
        → KeepsCommit (state S.Store tx.old.conn.now) (state S.Store tx.new.conn.now) }
    ensures survives { Survives (state S.Store tx.old.conn.now) (state S.Store tx.new.conn.now) (λ _. ⊥) }
    ensures full { HasCleanDisk (state S.Store tx.new.conn.now)
        → IfErr result (λ e. store_fault_of e ≡ StoreFault.Full
        → MoreFaults (state S.Store tx.old.conn.now).faults (state S.Store tx.new.conn.now).faults
        ⊎ IsRefused body.now) }
{
    tx.execute(
        "INSERT INTO entries (place, body) VALUES (?1, ?2)",
        &[ValueRef::Int(place as i64), ValueRef::Text(body)],
    )?;
    Ok(())
}

/// Inserts the bodies of a batch in their order, within the transaction.
fn put_all<S: Alter>(
    tx: &mut Transaction<'_, S>,
    place: u64,
    batch: &[Vec<u8>],
) -> Result<(), SqlError>
    requires small { place + length batch.now < 2 ^ 63 }
    requires inside { HasCleanDisk (state S.Store tx.old.conn.now) → IsInside (state S.Store tx.old.conn.now) }
    requires place { HasCleanDisk (state S.Store tx.old.conn.now)
        → place ≡ length (slots_in (state S.Store tx.old.conn.now).now.trees) }
    ensures same_reference { tx.new.conn.ghost_name ≡ tx.old.conn.ghost_name }
    ensures inside { HasCleanDisk (state S.Store tx.new.conn.now)
        → OnOk result (IsInside (state S.Store tx.new.conn.now)) }
    ensures more { HasCleanDisk (state S.Store tx.new.conn.now)
        → OnOk result (HasMore (state S.Store tx.old.conn.now).now.trees (map items batch.now)
        (state S.Store tx.new.conn.now).now.trees) }
    ensures kept { HasCleanDisk (state S.Store tx.new.conn.now)
        → KeepsCommit (state S.Store tx.old.conn.now) (state S.Store tx.new.conn.now) }
    ensures survives { Survives (state S.Store tx.old.conn.now) (state S.Store tx.new.conn.now) (λ _. ⊥) }
    ensures full { HasCleanDisk (state S.Store tx.new.conn.now) → IfErr result (λ e. store_fault_of e ≡ StoreFault.Full
        → HasNoRoom (state S.Store tx.old.conn.now).faults (state S.Store tx.new.conn.now).faults
        (map (λ body. Some body) (map items batch.now))) }
{
    let mut at = place;
    for body in batch {
        put(tx, at, body)?;
        at += 1;
    }
    Ok(())
}

/// Appends the whole batch in one transaction.
fn append_all<S: Alter>(
    conn: &mut Connection<S>,
    place: u64,
    batch: &[Vec<u8>],
) -> Result<(), SqlError>
    requires small { place + length batch.now < 2 ^ 63 }
    requires idle { conn.old.in_transaction ≡ false }
    requires ready { HasCleanDisk (state S.Store conn.old) → IsReady (state S.Store conn.old) }
    requires place { HasCleanDisk (state S.Store conn.old)
        → place ≡ length (slots_in (state S.Store conn.old).committed.trees) }
    ensures idle { conn.new.in_transaction ≡ false }
    ensures clean { HasCleanDisk (state S.Store conn.new) → HasCleanDisk (state S.Store conn.old) }
    ensures ready { HasCleanDisk (state S.Store conn.new) → OnOk result (IsReady (state S.Store conn.new)) }
    ensures more { HasCleanDisk (state S.Store conn.new)
        → OnOk result (HasMore (state S.Store conn.old).committed.trees (map items batch.now)
        (state S.Store conn.new).committed.trees) }
    ensures kept { HasCleanDisk (state S.Store conn.new) → IsTrue (state S.Store conn.new).is_open
        → OnErr result
        (IsReady (state S.Store conn.new) × ((state S.Store conn.new).committed ≡ (state S.Store conn.old).committed)) }
    ensures crash { HasCleanDisk (state S.Store conn.new) → (db : Trees) → (state S.Store conn.new).may_leave db
        → HasAllOrNone (state S.Store conn.old).committed.trees (map items batch.now) db }
    ensures full { HasCleanDisk (state S.Store conn.new) → IfErr result (λ e. store_fault_of e ≡ StoreFault.Full
        → HasNoRoom (state S.Store conn.old).faults (state S.Store conn.new).faults
        (map (λ body. Some body) (map items batch.now))) }
{
    let mut tx = conn.transaction();
    put_all(&mut tx, place, batch)?;
    tx.commit()
}

/// Whether the connection is open. It tries a statement that changes nothing.
pub fn is_still_open<S: Alter>(conn: &mut Connection<S>) -> bool
    ensures idle { conn.old.in_transaction ≡ false → conn.new.in_transaction ≡ false }
    ensures same { HasCleanDisk (state S.Store conn.new) → IsTrue result
        → IsUnchanged (state S.Store conn.old) (state S.Store conn.new) }
    ensures survives { Survives (state S.Store conn.old) (state S.Store conn.new) (λ _. ⊥) }
{
    conn.prepare("SELECT 1").is_ok()
}

/// Appends the whole batch at `place`, the first place after the content, in one transaction.
///
/// After `Device` and `Full` the batch may be there as a whole or not at all, and the connection may be shut. After
/// `NoMemory` nothing of the batch is there, and the connection is as it was.
pub fn append<S: Alter>(
    conn: &mut Connection<S>,
    place: u64,
    batch: &[Vec<u8>],
) -> Result<(), StoreFault>
    requires small { place + length batch.now < 2 ^ 63 }
    requires idle { conn.old.in_transaction ≡ false }
    requires ready { HasCleanDisk (state S.Store conn.old) → IsReady (state S.Store conn.old) }
    requires place { HasCleanDisk (state S.Store conn.old)
        → place ≡ length (slots_in (state S.Store conn.old).committed.trees) }
    ensures idle { conn.new.in_transaction ≡ false }
    ensures clean { HasCleanDisk (state S.Store conn.new) → HasCleanDisk (state S.Store conn.old) }
    ensures ready { HasCleanDisk (state S.Store conn.new) → OnOk result (IsReady (state S.Store conn.new)) }
    ensures more { HasCleanDisk (state S.Store conn.new)
        → OnOk result (HasMore (state S.Store conn.old).committed.trees (map items batch.now)
        (state S.Store conn.new).committed.trees) }
    ensures named { IfErr result (λ e. (e ≡ StoreFault.NoMemory) ⊎ IsTrue (is_device_fault e)) }
    ensures refused { HasCleanDisk (state S.Store conn.new) → result ≡ Err StoreFault.NoMemory
        → IsReady (state S.Store conn.new) × ((state S.Store conn.new).committed ≡ (state S.Store conn.old).committed) }
    ensures crash { HasCleanDisk (state S.Store conn.new) → (db : Trees) → (state S.Store conn.new).may_leave db
        → HasAllOrNone (state S.Store conn.old).committed.trees (map items batch.now) db }
    ensures full { HasCleanDisk (state S.Store conn.new) → result ≡ Err StoreFault.Full
        → HasNoRoom (state S.Store conn.old).faults (state S.Store conn.new).faults
        (map (λ body. Some body) (map items batch.now)) }
{
    let fault = match append_all(conn, place, batch) {
        Ok(()) => return Ok(()),
        Err(error) => fault_of(error),
    };
    if fault == StoreFault::NoMemory && !is_still_open(conn) {
        return Err(StoreFault::Device);
    }
    Err(fault)
}
