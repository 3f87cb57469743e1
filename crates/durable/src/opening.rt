//! Opening: a file that has no row yet becomes a store, and any other file is checked to be one.
ghost use Rattle.std.specs.Prelude.{◌≡◌, ◌≢◌, ◌⊎◌, ◌≤◌, ◌^◌, ℕ, ◌+◌, pos, List, [], length, IsTrue, OnOk, IfOk, IfErr, true, false};
ghost use Rattle.sqlite.specs.Effect.{Database};
ghost use Rattle.sqlite.specs.Given.{IsPlain};
ghost use Rattle.sqlite.specs.Listing.{understood};
ghost use Rattle.sqlite.specs.State.{HasCleanDisk, IsUnchanged, Shown, Survives};
ghost use Rattle.stores.specs.Faults.{is_device_fault};
ghost use Rattle.durable.specs.CallFaults.{IsCallFault};
ghost use Rattle.wire.specs.declared.record_format.RecordFormat.{RecordFormat};
ghost use Rattle.wire.specs.declared.record_format.RecordFormat.TheVariants.{One};
ghost use Rattle.store_tables.specs.Held.{slots_in, node_in, IsStoreIn};
ghost use Rattle.store_migration.specs.Migrating.{IsOpenedAs};
ghost use Rattle.sqlite.specs.Held.{state};
ghost use Rattle.sqlite.specs.Tree.{Trees};
ghost use Rattle.store_tables.specs.Tables.{TableOrder, AboutFirst, store_schema, IsStoreSchema};
ghost use Rattle.store_tables.specs.Layout.{AreTables};
ghost use Rattle.durable.specs.Opening.{IsOpened, IsBare, HasAbout, IsEmpty, HasFresh, IsMade, HasRows, IsOwner, HasLeastOrGreatest, IsVerdict, IsNegative, IsFresh, BecomesStore, OnlyReads};
ghost use Rattle.store_tables.specs.Within.{IsWithin, HasStore};

use sqlite::types::ValueRef;
use sqlite::{Alter, Connection, Error as SqlError, Row, Transaction};
use std::alloc::Global;
use store_migration::{Watch, migrate};
use store_tables::{FileOwner, Tables, fault_of, owner_in, place_in, tables_of};
use stores::StoreFault;
use wire::RecordFormat;

/// An open connection's store is whole: no statement left a part of itself.
fn is_whole<S: Alter>(conn: &Connection<S>)
    ensures whole { IsTrue (state S.Store conn.now).is_open → (S.Store.view conn.now.store).is_broken ≡ false }
{}

/// Which tables the database has, and which rows they can hold.
fn tables_in<S: Alter>(conn: &Connection<S>) -> Tables
    ensures tables { AreTables (state S.Store conn.now).now.schema result }
    ensures rows { IsTrue (state S.Store conn.now).is_open → IsStoreSchema (state S.Store conn.now).now.schema
        → HasRows (state S.Store conn.now).now }
    ensures bare { IsTrue (state S.Store conn.now).is_open → IsBare (state S.Store conn.now).now
        → ((state S.Store conn.now).now.trees 0 ≡ []) × ((state S.Store conn.now).now.trees 1 ≡ []) }
{
    is_whole(conn);
    tables_of(conn.schema())
}

/// Makes the table of the owner.
fn create_about<S: Alter>(tx: &mut Transaction<'_, S>) -> Result<(), SqlError>
    requires inside { HasCleanDisk (state S.Store tx.old.conn.now) → IsWithin (state S.Store tx.old.conn.now) IsBare }
    ensures same_reference { tx.new.conn.ghost_name ≡ tx.old.conn.ghost_name }
    ensures inside { HasCleanDisk (state S.Store tx.new.conn.now)
        → OnOk result (IsWithin (state S.Store tx.new.conn.now) HasAbout) }
    ensures survives { Survives (state S.Store tx.old.conn.now) (state S.Store tx.new.conn.now) (λ _. ⊥) }
{
    tx.execute(
        "CREATE TABLE IF NOT EXISTS about (id INTEGER PRIMARY KEY CHECK (id = 1), format INTEGER NOT NULL, node TEXT NOT NULL) STRICT",
        &[],
    )?;
    Ok(())
}

/// Makes the table of the records.
fn create_entries<S: Alter>(tx: &mut Transaction<'_, S>) -> Result<(), SqlError>
    requires inside { HasCleanDisk (state S.Store tx.old.conn.now) → IsWithin (state S.Store tx.old.conn.now) HasAbout }
    ensures same_reference { tx.new.conn.ghost_name ≡ tx.old.conn.ghost_name }
    ensures inside { HasCleanDisk (state S.Store tx.new.conn.now)
        → OnOk result (IsWithin (state S.Store tx.new.conn.now) IsEmpty) }
    ensures tables { HasCleanDisk (state S.Store tx.new.conn.now)
        → OnOk result ((state S.Store tx.new.conn.now).now.schema ≡ store_schema AboutFirst) }
    ensures survives { Survives (state S.Store tx.old.conn.now) (state S.Store tx.new.conn.now) (λ _. ⊥) }
{
    tx.execute(
        "CREATE TABLE IF NOT EXISTS entries (place INTEGER PRIMARY KEY, body TEXT NOT NULL) STRICT",
        &[],
    )?;
    Ok(())
}

/// Inserts the owner's row.
fn put_owner<S: Alter>(tx: &mut Transaction<'_, S>, node: &str) -> Result<(), SqlError>
    requires inside { HasCleanDisk (state S.Store tx.old.conn.now) → IsWithin (state S.Store tx.old.conn.now) IsEmpty }
    ensures same_reference { tx.new.conn.ghost_name ≡ tx.old.conn.ghost_name }
    ensures inside { HasCleanDisk (state S.Store tx.new.conn.now)
        → OnOk result (IsWithin (state S.Store tx.new.conn.now) (HasFresh node.now)) }
    ensures tables { HasCleanDisk (state S.Store tx.new.conn.now)
        → OnOk result ((state S.Store tx.new.conn.now).now.schema ≡ (state S.Store tx.old.conn.now).now.schema) }
    ensures survives { Survives (state S.Store tx.old.conn.now) (state S.Store tx.new.conn.now) (λ _. ⊥) }
{
    tx.execute(
        "INSERT INTO about (id, format, node) VALUES (1, ?1, ?2)",
        &[
            ValueRef::Int(i64::from(RecordFormat::Two.number())),
            ValueRef::Text(node.as_bytes()),
        ],
    )?;
    Ok(())
}

/// Makes the tables and the owner's row in one transaction.
fn make<S: Alter>(conn: &mut Connection<S>, node: &str) -> Result<(), SqlError>
    requires idle { conn.old.in_transaction ≡ false }
    requires opened { HasCleanDisk (state S.Store conn.old) → IsOpened (state S.Store conn.old)
        × IsBare (state S.Store conn.old).committed }
    ensures idle { conn.new.in_transaction ≡ false }
    ensures clean { HasCleanDisk (state S.Store conn.new) → HasCleanDisk (state S.Store conn.old) }
    ensures made { HasCleanDisk (state S.Store conn.new) → OnOk result (IsMade node.now (state S.Store conn.new)) }
    ensures crash { HasCleanDisk (state S.Store conn.new) → (db : Trees) → (state S.Store conn.new).may_leave db
        → (db ≡ (state S.Store conn.old).committed.trees) ⊎ IsFresh node.now db }
    ensures tables { HasCleanDisk (state S.Store conn.new)
        → OnOk result ((state S.Store conn.new).committed.schema ≡ store_schema AboutFirst) }
{
    let mut tx = conn.transaction();
    create_about(&mut tx)?;
    create_entries(&mut tx)?;
    put_owner(&mut tx, node)?;
    tx.commit()
}

/// Inserts the owner's row into tables that have no row.
fn write_owner<S: Alter>(conn: &mut Connection<S>, node: &str) -> Result<(), SqlError>
    requires idle { conn.old.in_transaction ≡ false }
    requires opened { HasCleanDisk (state S.Store conn.old) → IsOpened (state S.Store conn.old)
        × IsEmpty (state S.Store conn.old).committed }
    ensures idle { conn.new.in_transaction ≡ false }
    ensures clean { HasCleanDisk (state S.Store conn.new) → HasCleanDisk (state S.Store conn.old) }
    ensures made { HasCleanDisk (state S.Store conn.new) → OnOk result (IsMade node.now (state S.Store conn.new)) }
    ensures crash { HasCleanDisk (state S.Store conn.new) → (db : Trees) → (state S.Store conn.new).may_leave db
        → (db ≡ (state S.Store conn.old).committed.trees) ⊎ IsFresh node.now db }
    ensures tables { HasCleanDisk (state S.Store conn.new)
        → OnOk result ((state S.Store conn.new).committed.schema ≡ (state S.Store conn.old).committed.schema) }
{
    let mut tx = conn.transaction();
    put_owner(&mut tx, node)?;
    tx.commit()
}

/// The rows that a query on a store returns.
fn ask<S: Alter>(conn: &mut Connection<S>, sql: &str) -> Result<Vec<Row>, StoreFault>
    requires opened { HasCleanDisk (state S.Store conn.old) → IsOpened (state S.Store conn.old)
        × IsStoreSchema (state S.Store conn.old).committed.schema }
    requires plain { (order : TableOrder) → IsPlain (understood (store_schema order) sql.now) }
    ensures reads { OnlyReads S.Store conn.old conn.new }
    ensures same { HasCleanDisk (state S.Store conn.new)
        → OnOk result (IsUnchanged (state S.Store conn.old) (state S.Store conn.new)) }
    ensures shown { HasCleanDisk (state S.Store conn.new)
        → IfOk result (λ rows. Shown sql.now [] (state S.Store conn.old) (state S.Store conn.new) rows.items) }
    ensures named { IfErr result IsCallFault }
{
    match conn.query_all(sql, &[]) {
        Ok(rows) => Ok(rows),
        Err(error) => Err(fault_of(error)),
    }
}

/// The owner of the file.
fn find_owner<S: Alter>(conn: &mut Connection<S>, node: &str) -> Result<FileOwner, StoreFault>
    requires opened { HasCleanDisk (state S.Store conn.old) → IsOpened (state S.Store conn.old)
        × HasRows (state S.Store conn.old).committed }
    ensures reads { OnlyReads S.Store conn.old conn.new }
    ensures same { HasCleanDisk (state S.Store conn.new)
        → OnOk result (IsUnchanged (state S.Store conn.old) (state S.Store conn.new)) }
    ensures owner { HasCleanDisk (state S.Store conn.new)
        → IfOk result (IsOwner node.now (state S.Store conn.old).committed) }
    ensures named { IfErr result IsCallFault }
{
    let rows = ask(conn, "SELECT format, node FROM about")?;
    Ok(owner_in(&rows, node))
}

/// The least place of a record.
fn least_place<S: Alter>(conn: &mut Connection<S>) -> Result<Option<i64>, StoreFault>
    requires opened { HasCleanDisk (state S.Store conn.old) → IsOpened (state S.Store conn.old)
        × HasRows (state S.Store conn.old).committed }
    ensures reads { OnlyReads S.Store conn.old conn.new }
    ensures same { HasCleanDisk (state S.Store conn.new)
        → OnOk result (IsUnchanged (state S.Store conn.old) (state S.Store conn.new)) }
    ensures least { HasCleanDisk (state S.Store conn.new)
        → IfOk result (HasLeastOrGreatest false (state S.Store conn.old).committed) }
    ensures named { IfErr result IsCallFault }
{
    let rows = ask(conn, "SELECT place FROM entries ORDER BY place LIMIT 1")?;
    place_in(&rows)
}

/// The greatest place of a record.
fn greatest_place<S: Alter>(conn: &mut Connection<S>) -> Result<Option<i64>, StoreFault>
    requires opened { HasCleanDisk (state S.Store conn.old) → IsOpened (state S.Store conn.old)
        × HasRows (state S.Store conn.old).committed }
    ensures reads { OnlyReads S.Store conn.old conn.new }
    ensures same { HasCleanDisk (state S.Store conn.new)
        → OnOk result (IsUnchanged (state S.Store conn.old) (state S.Store conn.new)) }
    ensures greatest { HasCleanDisk (state S.Store conn.new)
        → IfOk result (HasLeastOrGreatest true (state S.Store conn.old).committed) }
    ensures named { IfErr result IsCallFault }
{
    let rows = ask(
        conn,
        "SELECT place FROM entries ORDER BY place DESC LIMIT 1",
    )?;
    place_in(&rows)
}

/// Whether there is a place, and it is below 0.
fn is_negative(place: Option<i64>) -> bool
    ensures some { IsTrue result → IsNegative place }
    ensures none { IsNegative place → IsTrue result }
{
    match place {
        Some(place) => place < 0,
        None => false,
    }
}

/// The content of both tables.
#[derive(Clone, Copy)]
enum Contents {
    NoRow,
    /// They are a store, in that format, of the node for which the file is opened.
    OwnStore(RecordFormat),
}

/// The content of both tables, or why they are no store of the node for which the file is opened.
fn verdict(owner: FileOwner, least: Option<i64>) -> Result<Contents, StoreFault>
    ensures never { IfErr result (λ e. e ≢ StoreFault.Reopen) }
    ensures places { IfErr result (λ e. (p : ℕ) → e ≡ StoreFault.Damaged p → p ≡ 0) }
    ensures judged { IfErr result (λ e. (e ≢ StoreFault.NoMemory) × (is_device_fault e ≡ false)) }
    ensures verdict { (node : List ℕ) (db : Database) → HasRows db → IsOwner node db owner
        → HasLeastOrGreatest false db least → IsVerdict node db result }
{
    if is_negative(least) {
        return Err(StoreFault::Damaged(0));
    }
    match (owner, least) {
        (FileOwner::Nobody, Some(_)) => Err(StoreFault::Damaged(0)),
        (FileOwner::Nobody, None) => Ok(Contents::NoRow),
        (FileOwner::OtherFormat, _) => Err(StoreFault::WrongVersion),
        (FileOwner::OtherNode, _) => Err(StoreFault::WrongNode),
        (FileOwner::ThisNode(format), _) => Ok(Contents::OwnStore(format)),
    }
}

/// The content of both tables of the file, or why it is no store of the node.
fn examine<S: Alter>(conn: &mut Connection<S>, node: &str) -> Result<Contents, StoreFault>
    requires opened { HasCleanDisk (state S.Store conn.old) → IsOpened (state S.Store conn.old)
        × HasRows (state S.Store conn.old).committed }
    ensures reads { OnlyReads S.Store conn.old conn.new }
    ensures same { HasCleanDisk (state S.Store conn.new)
        → OnOk result (IsUnchanged (state S.Store conn.old) (state S.Store conn.new)) }
    ensures never { IfErr result (λ e. e ≢ StoreFault.Reopen) }
    ensures places { IfErr result (λ e. (p : ℕ) → e ≡ StoreFault.Damaged p → p ≡ 0) }
    ensures found { HasCleanDisk (state S.Store conn.new)
        → IsVerdict node.now (state S.Store conn.old).committed result }
{
    let owner = find_owner(conn, node)?;
    let least = least_place(conn)?;
    verdict(owner, least)
}

/// The place after this one, which is not below 0.
fn next_place(place: i64) -> u64
    ensures { (n : ℕ) → place ≡ pos n → result ≡ n + 1 }
{
    place.unsigned_abs() + 1
}

/// The most places that a store can have: those from 0 to the greatest number of SQLite.
const MOST_PLACES: u64 = 1 << 63;

/// The number of places of a store's content, in either format.
fn count<S: Alter>(conn: &mut Connection<S>) -> Result<u64, StoreFault>
    requires opened { HasCleanDisk (state S.Store conn.old) → IsOpened (state S.Store conn.old)
        × HasRows (state S.Store conn.old).committed }
    requires store { HasCleanDisk (state S.Store conn.old) → (format : RecordFormat)
        × IsStoreIn format (state S.Store conn.old).committed.trees }
    ensures reads { OnlyReads S.Store conn.old conn.new }
    ensures same { HasCleanDisk (state S.Store conn.new)
        → OnOk result (IsUnchanged (state S.Store conn.old) (state S.Store conn.new)) }
    ensures small { IfOk result (λ count. count ≤ 2 ^ 63) }
    ensures count { HasCleanDisk (state S.Store conn.new)
        → IfOk result (λ count. count ≡ length (slots_in (state S.Store conn.old).committed.trees)) }
    ensures named { IfErr result IsCallFault }
{
    match greatest_place(conn)? {
        Some(place) => {
            let count = next_place(place);
            if count > MOST_PLACES {
                return Err(StoreFault::Device);
            }
            Ok(count)
        }
        None => Ok(0),
    }
}

/// A file without a table becomes a store of the node.
fn start<S: Alter>(conn: &mut Connection<S>, node: &str) -> Result<u64, StoreFault>
    requires idle { conn.old.in_transaction ≡ false }
    requires opened { HasCleanDisk (state S.Store conn.old) → IsOpened (state S.Store conn.old)
        × IsBare (state S.Store conn.old).committed }
    ensures idle { conn.new.in_transaction ≡ false }
    ensures clean { HasCleanDisk (state S.Store conn.new) → HasCleanDisk (state S.Store conn.old) }
    ensures never { IfErr result (λ e. e ≢ StoreFault.Reopen) }
    ensures small { IfOk result (λ count. count ≤ 2 ^ 63) }
    ensures settled { HasCleanDisk (state S.Store conn.new)
        → BecomesStore node.now (state S.Store conn.old).committed (state S.Store conn.new) result }
{
    match make(conn, node) {
        Ok(()) => Ok(0),
        Err(error) => Err(fault_of(error)),
    }
}

/// A file whose tables have no row becomes a store of the node.
fn start_in_empty_tables<S: Alter>(conn: &mut Connection<S>, node: &str) -> Result<u64, StoreFault>
    requires idle { conn.old.in_transaction ≡ false }
    requires opened { HasCleanDisk (state S.Store conn.old) → IsOpened (state S.Store conn.old)
        × IsEmpty (state S.Store conn.old).committed }
    ensures idle { conn.new.in_transaction ≡ false }
    ensures clean { HasCleanDisk (state S.Store conn.new) → HasCleanDisk (state S.Store conn.old) }
    ensures never { IfErr result (λ e. e ≢ StoreFault.Reopen) }
    ensures small { IfOk result (λ count. count ≤ 2 ^ 63) }
    ensures settled { HasCleanDisk (state S.Store conn.new)
        → BecomesStore node.now (state S.Store conn.old).committed (state S.Store conn.new) result }
{
    match write_owner(conn, node) {
        Ok(()) => Ok(0),
        Err(error) => Err(fault_of(error)),
    }
}

/// Migrates a store of format One to format Two. Returns the number of its places.
fn resume_format_one<S: Alter, W: Watch>(
    conn: &mut Connection<S>,
    alloc: Global,
    watch: &mut W,
) -> Result<u64, StoreFault>
    requires idle { conn.old.in_transaction ≡ false }
    requires opened { HasCleanDisk (state S.Store conn.old) → IsOpened (state S.Store conn.old)
        × HasRows (state S.Store conn.old).committed }
    requires store { HasCleanDisk (state S.Store conn.old) → HasStore One (state S.Store conn.old).committed }
    ensures idle { conn.new.in_transaction ≡ false }
    ensures clean { HasCleanDisk (state S.Store conn.new) → HasCleanDisk (state S.Store conn.old) }
    ensures never { IfErr result (λ e. e ≢ StoreFault.Reopen) }
    ensures small { IfOk result (λ count. count ≤ 2 ^ 63) }
    ensures settled { HasCleanDisk (state S.Store conn.new)
        → BecomesStore (node_in (state S.Store conn.old).committed.trees) (state S.Store conn.old).committed
        (state S.Store conn.new) result }
{
    let count = count(conn)?;
    match migrate(conn, alloc, count, watch) {
        Ok(()) => Ok(count),
        Err(fault) => Err(fault),
    }
}

/// Opens a file with both tables: it is a store of the node, becomes one where it has no row, or is refused.
fn resume<S: Alter, W: Watch>(
    conn: &mut Connection<S>,
    alloc: Global,
    node: &str,
    watch: &mut W,
) -> Result<u64, StoreFault>
    requires idle { conn.old.in_transaction ≡ false }
    requires opened { HasCleanDisk (state S.Store conn.old) → IsOpened (state S.Store conn.old)
        × HasRows (state S.Store conn.old).committed }
    ensures idle { conn.new.in_transaction ≡ false }
    ensures clean { HasCleanDisk (state S.Store conn.new) → HasCleanDisk (state S.Store conn.old) }
    ensures never { IfErr result (λ e. e ≢ StoreFault.Reopen) }
    ensures small { IfOk result (λ count. count ≤ 2 ^ 63) }
    ensures settled { HasCleanDisk (state S.Store conn.new)
        → BecomesStore node.now (state S.Store conn.old).committed (state S.Store conn.new) result }
{
    match examine(conn, node)? {
        Contents::NoRow => start_in_empty_tables(conn, node),
        Contents::OwnStore(RecordFormat::One) => resume_format_one(conn, alloc, watch),
        Contents::OwnStore(RecordFormat::Two) => count(conn),
    }
}

/// Makes the file a store of the node where it has no row yet, or checks that it is one, and migrates it where it has
/// format One. Returns the number of places of its content.
///
/// Fails with the first of these that applies: `Damaged(0)` where the file has other tables, records without an owner,
/// or a place below 0; `WrongVersion`; `WrongNode`; `Damaged(p)` for the first place of a store of format One that has
/// no record. Fails with `Device`, `Full` or `NoMemory` at any call of the database. A refused file is as it was,
/// except that after one of these three faults a new file may have become a store, and a store of format One may have
/// been migrated.
pub(crate) fn open_as_store<S: Alter, W: Watch>(
    conn: &mut Connection<S>,
    alloc: Global,
    node: &str,
    watch: &mut W,
) -> Result<u64, StoreFault>
    requires idle { conn.old.in_transaction ≡ false }
    requires opened { HasCleanDisk (state S.Store conn.old) → IsOpened (state S.Store conn.old) }
    ensures idle { conn.new.in_transaction ≡ false }
    ensures clean { HasCleanDisk (state S.Store conn.new) → HasCleanDisk (state S.Store conn.old) }
    ensures never { IfErr result (λ e. e ≢ StoreFault.Reopen) }
    ensures small { IfOk result (λ count. count ≤ 2 ^ 63) }
    ensures settled { HasCleanDisk (state S.Store conn.new)
        → BecomesStore node.now (state S.Store conn.old).committed (state S.Store conn.new) result }
    ensures opened { HasCleanDisk (state S.Store conn.new)
        → OnOk result (IsOpenedAs (state S.Store conn.old).committed.trees (slots_in
        (state S.Store conn.new).committed.trees)) }
{
    match tables_in(conn) {
        Tables::None => start(conn, node),
        Tables::Store => resume(conn, alloc, node, watch),
        Tables::Foreign => Err(StoreFault::Damaged(0)),
    }
}
