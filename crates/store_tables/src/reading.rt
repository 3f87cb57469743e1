//! Reading: the bodies of a stretch of places.
ghost use Rattle.std.specs.Prelude.{◌≡◌, ◌<◌, ◌^◌, ◌==◌, ◌⊎◌, IfOk, IfErr, OnOk, IsTrue, false, map, cond, Some, None};
ghost use Rattle.std.specs.Option.{option_copied};
ghost use Rattle.sqlite.specs.Order.{column, bytes};
ghost use Rattle.sqlite.specs.State.{HasCleanDisk, KeepsCommit, Survives};
ghost use Rattle.sqlite.specs.Held.{state};
ghost use Rattle.sqlite.specs.Tree.{Trees};
ghost use Rattle.wire.specs.declared.record_format.RecordFormat.TheVariants.{One};
ghost use Rattle.stores.specs.Faults.{is_device_fault};
ghost use Rattle.store_tables.specs.Held.{IsReady};
ghost use Rattle.store_tables.specs.Within.{IsWithin, HasStore};
ghost use Rattle.store_tables.specs.Slots.{place_of};
ghost use Rattle.store_tables.specs.Tables.{entry_rows};
ghost use Rattle.store_tables.specs.Pages.{rows_within, bodies_from};

use crate::batch::is_still_open;
use crate::fault::fault_of;
use sqlite::types::ValueRef;
use sqlite::{Alter, Connection, Error as SqlError, Row, Transaction};
use std::alloc::Global;
use stores::StoreFault;

/// The query for the entries from one place to another, each with its place and its body, in their order.
const PAGE_QUERY: &str =
    "SELECT place, body FROM entries WHERE place >= ?1 AND place <= ?2 ORDER BY place";

/// The entries from the first place to the last one, each with its place and its body, in their order.
fn query_rows<S: Alter>(
    conn: &mut Connection<S>,
    first: u64,
    last: u64,
) -> Result<Vec<Row>, SqlError>
    requires first { first < 2 ^ 63 }
    requires last { last < 2 ^ 63 }
    requires ready { HasCleanDisk (state S.Store conn.old) → IsReady (state S.Store conn.old) }
    ensures idle { conn.old.in_transaction ≡ false → conn.new.in_transaction ≡ false }
    ensures clean { HasCleanDisk (state S.Store conn.new) → HasCleanDisk (state S.Store conn.old) }
    ensures rows { HasCleanDisk (state S.Store conn.new)
        → IfOk result (λ rows. rows.items ≡ rows_within first last (entry_rows
        (state S.Store conn.old).committed.trees)) }
    ensures open { HasCleanDisk (state S.Store conn.new) → OnOk result (IsTrue (state S.Store conn.new).is_open) }
    ensures kept { HasCleanDisk (state S.Store conn.new) → IsTrue (state S.Store conn.new).is_open
        → IsReady (state S.Store conn.new) × ((state S.Store conn.new).committed ≡ (state S.Store conn.old).committed) }
    ensures crash { HasCleanDisk (state S.Store conn.new) → (db : Trees) → (state S.Store conn.new).may_leave db
        → db ≡ (state S.Store conn.old).committed.trees }
{
    conn.query_all(
        PAGE_QUERY,
        &[ValueRef::Int(first as i64), ValueRef::Int(last as i64)],
    )
}

/// As `query_rows`. `NoMemory` leaves the connection as it was; after `Device` and `Full` it may be shut.
pub fn rows_of<S: Alter>(
    conn: &mut Connection<S>,
    first: u64,
    last: u64,
) -> Result<Vec<Row>, StoreFault>
    requires first { first < 2 ^ 63 }
    requires last { last < 2 ^ 63 }
    requires ready { HasCleanDisk (state S.Store conn.old) → IsReady (state S.Store conn.old) }
    ensures idle { conn.old.in_transaction ≡ false → conn.new.in_transaction ≡ false }
    ensures clean { HasCleanDisk (state S.Store conn.new) → HasCleanDisk (state S.Store conn.old) }
    ensures rows { HasCleanDisk (state S.Store conn.new)
        → IfOk result (λ rows. rows.items ≡ rows_within first last (entry_rows
        (state S.Store conn.old).committed.trees)) }
    ensures ok { HasCleanDisk (state S.Store conn.new)
        → OnOk result (IsReady (state S.Store conn.new)
        × ((state S.Store conn.new).committed ≡ (state S.Store conn.old).committed)) }
    ensures refused { HasCleanDisk (state S.Store conn.new) → IfErr result (λ e. is_device_fault e ≡ false
        → IsReady (state S.Store conn.new)
        × ((state S.Store conn.new).committed ≡ (state S.Store conn.old).committed)) }
    ensures named { IfErr result (λ e. (e ≡ StoreFault.NoMemory) ⊎ IsTrue (is_device_fault e)) }
    ensures crash { HasCleanDisk (state S.Store conn.new) → (db : Trees) → (state S.Store conn.new).may_leave db
        → db ≡ (state S.Store conn.old).committed.trees }
{
    let fault = match query_rows(conn, first, last) {
        Ok(rows) => return Ok(rows),
        Err(error) => fault_of(error),
    };
    if fault == StoreFault::NoMemory && !is_still_open(conn) {
        return Err(StoreFault::Device);
    }
    Err(fault)
}

/// The entries from the first place to the last one, as the transaction sees them, each with its place and its body,
/// in their order. Fails with the error of the query, which leaves the last commit as it was.
pub fn rows_inside<S: Alter>(
    tx: &mut Transaction<'_, S>,
    first: u64,
    last: u64,
) -> Result<Vec<Row>, SqlError>
    requires first { first < 2 ^ 63 }
    requires last { last < 2 ^ 63 }
    requires inside { HasCleanDisk (state S.Store tx.old.conn.now)
        → IsWithin (state S.Store tx.old.conn.now) (HasStore One) }
    ensures same_reference { tx.new.conn.ghost_name ≡ tx.old.conn.ghost_name }
    ensures inside { HasCleanDisk (state S.Store tx.new.conn.now)
        → OnOk result (IsWithin (state S.Store tx.new.conn.now) (HasStore One)) }
    ensures rows { HasCleanDisk (state S.Store tx.new.conn.now)
        → IfOk result (λ rows. rows.items ≡ rows_within first last (entry_rows
        (state S.Store tx.old.conn.now).now.trees)) }
    ensures same { HasCleanDisk (state S.Store tx.new.conn.now)
        → OnOk result ((state S.Store tx.new.conn.now).now ≡ (state S.Store tx.old.conn.now).now) }
    ensures kept { HasCleanDisk (state S.Store tx.new.conn.now)
        → KeepsCommit (state S.Store tx.old.conn.now) (state S.Store tx.new.conn.now) }
    ensures survives { Survives (state S.Store tx.old.conn.now) (state S.Store tx.new.conn.now) (λ _. ⊥) }
{
    tx.query_all(
        PAGE_QUERY,
        &[ValueRef::Int(first as i64), ValueRef::Int(last as i64)],
    )
}

/// The body of a row that is at that place, or `None` where it is at another. Fails with `Device` where the row has no
/// place or no body; this needs no memory.
fn body_at(row: &Row, place: u64) -> Result<Option<&[u8]>, StoreFault>
    ensures ok { IfOk result (λ body. option_copied body ≡ cond (place_of row.now == place) (Some (bytes
        (column row.now 1))) None) }
    ensures named { IfErr result (λ e. e ≡ StoreFault.Device) }
{
    let found: u64 = match row.get(0) {
        Ok(found) => found,
        Err(_) => return Err(StoreFault::Device),
    };
    if found != place {
        return Ok(None);
    }
    match row.get_ref(1) {
        Ok(ValueRef::Text(body)) => Ok(Some(body)),
        _ => Err(StoreFault::Device),
    }
}

/// The bodies of the rows, up to the first row that isn't at the next place. Fails with `Device` where a row has no
/// place or no body, and with `NoMemory` where there is no room for the bodies.
pub fn bodies<'a>(alloc: Global, rows: &'a [Row], first: u64) -> Result<Vec<&'a [u8]>, StoreFault>
    requires first { first < 2 ^ 63 }
    ensures ok { IfOk result (λ all. map (λ body. body.now) all.items ≡ bodies_from first rows.now) }
    ensures named { IfErr result (λ e. (e ≡ StoreFault.NoMemory) ⊎ (e ≡ StoreFault.Device)) }
{
    let mut bodies = Vec::new(alloc);
    for (at, row) in rows.iter().enumerate() {
        match body_at(row, first + at as u64)? {
            Some(body) => bodies.push(body)?,
            None => return Ok(bodies),
        }
    }
    Ok(bodies)
}
