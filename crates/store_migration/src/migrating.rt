//! The migration of a store of format One to format Two: its records are rewritten, and then its owner's row.
ghost use Rattle.std.specs.Prelude.{◌≡◌, ◌⊎◌, ◌<◌, ◌≤◌, ◌+◌, ◌^◌, ℕ, [], ◌∷◌, drop, false, length, Some, IfOk, IfErr, OnOk, IsTrue};
ghost use Rattle.sqlite.specs.State.{HasCleanDisk, KeepsCommit, Survives};
ghost use Rattle.sqlite.specs.Held.{state};
ghost use Rattle.sqlite.specs.Tree.{Trees};
ghost use Rattle.wire.specs.Records.{IsRecordText};
ghost use Rattle.wire.specs.declared.input.Input.{Input};
ghost use Rattle.wire.specs.declared.record_format.RecordFormat.TheVariants.{One, Two};
ghost use Rattle.stores.specs.Faults.{is_judgement, IsReadFault};
ghost use Rattle.stores.specs.Records.{Places, IsDamagedIn};
ghost use Rattle.store_tables.specs.Held.{slots_in, IsReadyIn};
ghost use Rattle.store_tables.specs.Within.{IsWithin, HasStore};
ghost use Rattle.store_migration.specs.Migrating.{HasPlaces, IsMigrating, IsMigrated, with_body};

use crate::watch::Watch;
use sqlite::types::ValueRef;
use sqlite::{Alter, Connection, Error as SqlError, Transaction};
use std::alloc::Global;
use store_tables::{bodies, fault_of, rows_inside};
use stores::{PAGE, StoreFault};
use wire::{RecordFormat, TextFault, encode_input};
use wire_lines::decode_input_v1;

/// Gives the record at a place another body, within the transaction.
fn put_body<S: Alter>(tx: &mut Transaction<'_, S>, place: u64, body: &[u8]) -> Result<(), SqlError>
    requires small { place < 2 ^ 63 }
    requires inside { HasCleanDisk (state S.Store tx.old.conn.now)
        → IsWithin (state S.Store tx.old.conn.now) (HasStore One) }
    ensures same_reference { tx.new.conn.ghost_name ≡ tx.old.conn.ghost_name }
    ensures inside { HasCleanDisk (state S.Store tx.new.conn.now)
        → OnOk result (IsWithin (state S.Store tx.new.conn.now) (HasStore One)) }
    ensures put { HasCleanDisk (state S.Store tx.new.conn.now)
        → OnOk result (HasPlaces One (state S.Store tx.old.conn.now).now.trees
        (with_body place body.now (slots_in (state S.Store tx.old.conn.now).now.trees))
        (state S.Store tx.new.conn.now).now.trees) }
    ensures schema { HasCleanDisk (state S.Store tx.new.conn.now)
        → OnOk result ((state S.Store tx.new.conn.now).now.schema ≡ (state S.Store tx.old.conn.now).now.schema) }
    ensures kept { HasCleanDisk (state S.Store tx.new.conn.now)
        → KeepsCommit (state S.Store tx.old.conn.now) (state S.Store tx.new.conn.now) }
    ensures survives { Survives (state S.Store tx.old.conn.now) (state S.Store tx.new.conn.now) (λ _. ⊥) }
{
    tx.execute(
        "UPDATE entries SET body = ?2 WHERE place = ?1",
        &[ValueRef::Int(place as i64), ValueRef::Text(body)],
    )?;
    Ok(())
}

/// Gives the store format Two, within the transaction.
fn put_format<S: Alter>(tx: &mut Transaction<'_, S>) -> Result<(), SqlError>
    requires inside { HasCleanDisk (state S.Store tx.old.conn.now)
        → IsWithin (state S.Store tx.old.conn.now) (HasStore One) }
    ensures same_reference { tx.new.conn.ghost_name ≡ tx.old.conn.ghost_name }
    ensures inside { HasCleanDisk (state S.Store tx.new.conn.now)
        → OnOk result (IsWithin (state S.Store tx.new.conn.now) (HasStore Two)) }
    ensures put { HasCleanDisk (state S.Store tx.new.conn.now)
        → OnOk result (HasPlaces Two (state S.Store tx.old.conn.now).now.trees
        (slots_in (state S.Store tx.old.conn.now).now.trees) (state S.Store tx.new.conn.now).now.trees) }
    ensures schema { HasCleanDisk (state S.Store tx.new.conn.now)
        → OnOk result ((state S.Store tx.new.conn.now).now.schema ≡ (state S.Store tx.old.conn.now).now.schema) }
    ensures kept { HasCleanDisk (state S.Store tx.new.conn.now)
        → KeepsCommit (state S.Store tx.old.conn.now) (state S.Store tx.new.conn.now) }
    ensures survives { Survives (state S.Store tx.old.conn.now) (state S.Store tx.new.conn.now) (λ _. ⊥) }
{
    tx.execute(
        "UPDATE about SET format = ?1",
        &[ValueRef::Int(i64::from(RecordFormat::Two.number()))],
    )?;
    Ok(())
}

/// Reads the text as an input in format One, and returns its text in format Two. Fails with `Shape` where it writes
/// none.
fn migrated_text(alloc: Global, text: &[u8]) -> Result<Vec<u8>, TextFault>
    ensures ok { IfOk result (λ new. (input : Input) × IsRecordText One text.now input
        × IsRecordText Two new.items input) }
    ensures shape { result ≡ Err TextFault.Shape → (input : Input) → IsRecordText One text.now input → ⊥ }
{
    let input = match decode_input_v1(alloc, text) {
        Ok(input) => input,
        Err(fault) => return Err(fault),
    };
    match encode_input(alloc, &input) {
        Ok(text) => Ok(text),
        Err(_) => Err(TextFault::NoMemory),
    }
}

/// Rewrites the record at a place, which has that body, in format Two, within the transaction: one more place is
/// migrated. Fails with `Damaged(place)` where the body is no record's in format One.
fn migrate_record<S: Alter>(
    tx: &mut Transaction<'_, S>,
    alloc: Global,
    place: u64,
    body: &[u8],
) -> Result<(), StoreFault>
    requires small { place < 2 ^ 63 }
    requires inside { HasCleanDisk (state S.Store tx.old.conn.now)
        → IsWithin (state S.Store tx.old.conn.now) (HasStore One) }
    ensures same_reference { tx.new.conn.ghost_name ≡ tx.old.conn.ghost_name }
    ensures inside { HasCleanDisk (state S.Store tx.new.conn.now)
        → OnOk result (IsWithin (state S.Store tx.new.conn.now) (HasStore One)) }
    ensures migrating { HasCleanDisk (state S.Store tx.new.conn.now)
        → OnOk result ((before : Trees) (rest : Places)
        → IsMigrating place before (state S.Store tx.old.conn.now).now.trees
        → drop place (slots_in before) ≡ Some body.now ∷ rest
        → IsMigrating (place + 1) before (state S.Store tx.new.conn.now).now.trees) }
    ensures damaged { IfErr result (λ e. (p : ℕ) → e ≡ StoreFault.Damaged p → (p ≡ place)
        × ((input : Input) → IsRecordText One body.now input → ⊥)) }
    ensures named { IfErr result IsReadFault }
    ensures schema { HasCleanDisk (state S.Store tx.new.conn.now)
        → OnOk result ((state S.Store tx.new.conn.now).now.schema ≡ (state S.Store tx.old.conn.now).now.schema) }
    ensures kept { HasCleanDisk (state S.Store tx.new.conn.now)
        → KeepsCommit (state S.Store tx.old.conn.now) (state S.Store tx.new.conn.now) }
    ensures survives { Survives (state S.Store tx.old.conn.now) (state S.Store tx.new.conn.now) (λ _. ⊥) }
{
    let text = match migrated_text(alloc, body) {
        Ok(text) => text,
        Err(TextFault::NoMemory) => return Err(StoreFault::NoMemory),
        Err(TextFault::Shape) => return Err(StoreFault::Damaged(place)),
    };
    match put_body(tx, place, &text) {
        Ok(()) => Ok(()),
        Err(error) => Err(fault_of(error)),
    }
}

/// Rewrites the records of the places from the first one up to, but not including, another one, within the transaction.
/// There is at least one such place, and those before them are migrated. Fails with `Damaged(p)` for the first of these
/// places that has no record in format One.
fn migrate_page<S: Alter>(
    tx: &mut Transaction<'_, S>,
    alloc: Global,
    first: u64,
    until: u64,
) -> Result<(), StoreFault>
    requires some { first < until }
    requires small { until ≤ 2 ^ 63 }
    requires inside { HasCleanDisk (state S.Store tx.old.conn.now)
        → IsWithin (state S.Store tx.old.conn.now) (HasStore One) }
    ensures same_reference { tx.new.conn.ghost_name ≡ tx.old.conn.ghost_name }
    ensures inside { HasCleanDisk (state S.Store tx.new.conn.now)
        → OnOk result (IsWithin (state S.Store tx.new.conn.now) (HasStore One)) }
    ensures migrating { HasCleanDisk (state S.Store tx.new.conn.now)
        → OnOk result ((before : Trees) → until ≤ length (slots_in before)
        → IsMigrating first before (state S.Store tx.old.conn.now).now.trees
        → IsMigrating until before (state S.Store tx.new.conn.now).now.trees) }
    ensures damaged { HasCleanDisk (state S.Store tx.new.conn.now)
        → IfErr result (λ e. (p : ℕ) → e ≡ StoreFault.Damaged p → (before : Trees) → until ≤ length (slots_in before)
        → IsMigrating first before (state S.Store tx.old.conn.now).now.trees → IsDamagedIn One p (slots_in before)) }
    ensures named { IfErr result IsReadFault }
    ensures schema { HasCleanDisk (state S.Store tx.new.conn.now)
        → OnOk result ((state S.Store tx.new.conn.now).now.schema ≡ (state S.Store tx.old.conn.now).now.schema) }
    ensures kept { HasCleanDisk (state S.Store tx.new.conn.now)
        → KeepsCommit (state S.Store tx.old.conn.now) (state S.Store tx.new.conn.now) }
    ensures survives { Survives (state S.Store tx.old.conn.now) (state S.Store tx.new.conn.now) (λ _. ⊥) }
{
    let rows = match rows_inside(tx, first, until - 1) {
        Ok(rows) => rows,
        Err(error) => return Err(fault_of(error)),
    };
    let bodies = bodies(alloc, &rows, first)?;
    if bodies.len() as u64 > until - first {
        return Err(StoreFault::Device);
    }
    for (at, body) in bodies.iter().enumerate() {
        migrate_record(tx, alloc, first + at as u64, body)?;
    }
    if (bodies.len() as u64) < until - first {
        return Err(StoreFault::Damaged(first + bodies.len() as u64));
    }
    Ok(())
}

/// Rewrites all `count` records in format Two, within the transaction. Fails with `Damaged(p)` for the first place that
/// has no record in format One.
fn migrate_records<S: Alter, W: Watch>(
    tx: &mut Transaction<'_, S>,
    alloc: Global,
    count: u64,
    watch: &mut W,
) -> Result<(), StoreFault>
    requires small { count ≤ 2 ^ 63 }
    requires inside { HasCleanDisk (state S.Store tx.old.conn.now)
        → IsWithin (state S.Store tx.old.conn.now) (HasStore One) }
    requires count { HasCleanDisk (state S.Store tx.old.conn.now)
        → count ≡ length (slots_in (state S.Store tx.old.conn.now).now.trees) }
    ensures same_reference { tx.new.conn.ghost_name ≡ tx.old.conn.ghost_name }
    ensures inside { HasCleanDisk (state S.Store tx.new.conn.now)
        → OnOk result (IsWithin (state S.Store tx.new.conn.now) (HasStore One)) }
    ensures migrating { HasCleanDisk (state S.Store tx.new.conn.now)
        → OnOk result (IsMigrating count (state S.Store tx.old.conn.now).now.trees
        (state S.Store tx.new.conn.now).now.trees) }
    ensures damaged { HasCleanDisk (state S.Store tx.new.conn.now)
        → IfErr result (λ e. (p : ℕ) → e ≡ StoreFault.Damaged p
        → IsDamagedIn One p (slots_in (state S.Store tx.old.conn.now).now.trees)) }
    ensures named { IfErr result IsReadFault }
    ensures schema { HasCleanDisk (state S.Store tx.new.conn.now)
        → OnOk result ((state S.Store tx.new.conn.now).now.schema ≡ (state S.Store tx.old.conn.now).now.schema) }
    ensures kept { HasCleanDisk (state S.Store tx.new.conn.now)
        → KeepsCommit (state S.Store tx.old.conn.now) (state S.Store tx.new.conn.now) }
    ensures survives { Survives (state S.Store tx.old.conn.now) (state S.Store tx.new.conn.now) (λ _. ⊥) }
{
    let mut done = 0;
    while done < count {
        let until = count.min(done + PAGE);
        migrate_page(tx, alloc, done, until)?;
        done = until;
        watch.migrated(done, count);
    }
    Ok(())
}

/// Rewrites all records and the owner's row in format Two, within the transaction.
fn migrate_inside<S: Alter, W: Watch>(
    tx: &mut Transaction<'_, S>,
    alloc: Global,
    count: u64,
    watch: &mut W,
) -> Result<(), StoreFault>
    requires small { count ≤ 2 ^ 63 }
    requires inside { HasCleanDisk (state S.Store tx.old.conn.now)
        → IsWithin (state S.Store tx.old.conn.now) (HasStore One) }
    requires count { HasCleanDisk (state S.Store tx.old.conn.now)
        → count ≡ length (slots_in (state S.Store tx.old.conn.now).now.trees) }
    ensures same_reference { tx.new.conn.ghost_name ≡ tx.old.conn.ghost_name }
    ensures inside { HasCleanDisk (state S.Store tx.new.conn.now)
        → OnOk result (IsWithin (state S.Store tx.new.conn.now) (HasStore Two)) }
    ensures migrated { HasCleanDisk (state S.Store tx.new.conn.now)
        → OnOk result (IsMigrated (state S.Store tx.old.conn.now).now.trees (state S.Store tx.new.conn.now).now.trees) }
    ensures damaged { HasCleanDisk (state S.Store tx.new.conn.now)
        → IfErr result (λ e. (p : ℕ) → e ≡ StoreFault.Damaged p
        → IsDamagedIn One p (slots_in (state S.Store tx.old.conn.now).now.trees)) }
    ensures named { IfErr result IsReadFault }
    ensures schema { HasCleanDisk (state S.Store tx.new.conn.now)
        → OnOk result ((state S.Store tx.new.conn.now).now.schema ≡ (state S.Store tx.old.conn.now).now.schema) }
    ensures kept { HasCleanDisk (state S.Store tx.new.conn.now)
        → KeepsCommit (state S.Store tx.old.conn.now) (state S.Store tx.new.conn.now) }
    ensures survives { Survives (state S.Store tx.old.conn.now) (state S.Store tx.new.conn.now) (λ _. ⊥) }
{
    migrate_records(tx, alloc, count, watch)?;
    match put_format(tx) {
        Ok(()) => Ok(()),
        Err(error) => Err(fault_of(error)),
    }
}

/// Migrates a store of format One, which has `count` places, to format Two with the same inputs, in one transaction.
///
/// Fails with `Damaged(p)` for the first place that has no record in format One, and with `Device`, `Full` or
/// `NoMemory` at any call of the database. After `Damaged` the store has format One with its records as they were;
/// after the other faults it has, or it is migrated.
pub fn migrate<S: Alter, W: Watch>(
    conn: &mut Connection<S>,
    alloc: Global,
    count: u64,
    watch: &mut W,
) -> Result<(), StoreFault>
    requires small { count ≤ 2 ^ 63 }
    requires idle { conn.old.in_transaction ≡ false }
    requires ready { HasCleanDisk (state S.Store conn.old) → IsReadyIn One (state S.Store conn.old) }
    requires count { HasCleanDisk (state S.Store conn.old)
        → count ≡ length (slots_in (state S.Store conn.old).committed.trees) }
    ensures idle { conn.new.in_transaction ≡ false }
    ensures clean { HasCleanDisk (state S.Store conn.new) → HasCleanDisk (state S.Store conn.old) }
    ensures ready { HasCleanDisk (state S.Store conn.new) → OnOk result (IsReadyIn Two (state S.Store conn.new)) }
    ensures migrated { HasCleanDisk (state S.Store conn.new)
        → OnOk result (IsMigrated (state S.Store conn.old).committed.trees (state S.Store conn.new).committed.trees) }
    ensures tables { HasCleanDisk (state S.Store conn.new)
        → OnOk result ((state S.Store conn.new).committed.schema ≡ (state S.Store conn.old).committed.schema) }
    ensures damaged { HasCleanDisk (state S.Store conn.new)
        → IfErr result (λ e. (p : ℕ) → e ≡ StoreFault.Damaged p
        → IsDamagedIn One p (slots_in (state S.Store conn.old).committed.trees)) }
    ensures named { IfErr result IsReadFault }
    ensures unharmed { HasCleanDisk (state S.Store conn.new)
        → IfErr result (λ e. IsTrue (is_judgement e) → (db : Trees) → (state S.Store conn.new).may_leave db
        → db ≡ (state S.Store conn.old).committed.trees) }
    ensures crash { HasCleanDisk (state S.Store conn.new) → (db : Trees) → (state S.Store conn.new).may_leave db
        → (db ≡ (state S.Store conn.old).committed.trees) ⊎ IsMigrated (state S.Store conn.old).committed.trees db }
{
    let mut tx = conn.transaction();
    migrate_inside(&mut tx, alloc, count, watch)?;
    match tx.commit() {
        Ok(()) => Ok(()),
        Err(error) => Err(fault_of(error)),
    }
}
