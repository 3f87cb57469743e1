//! A store over an open connection.
ghost use Rattle.std.specs.Prelude.{◌≡◌, ◌⊎◌, ◌+◌, ◌-◌, ◌<◌, ◌≤◌, ◌^◌, ℕ, false, Ok, Err, Some, IfOk, IfErr, IfSome, IfNone, OnOk, OnErr, IsTrue, map, take, drop, length};
ghost use Rattle.durable.specs.Connected.{IsHonest, content, MayHold, owner, disk_faults};
ghost use Rattle.stores.specs.Calls.{Appends, Loads};
ghost use Rattle.stores.specs.Bodies.{items};
ghost use Rattle.store_tables.specs.Held.{followed_by, slots_in, IsReady, IsStore};
ghost use Rattle.sqlite.specs.State.{HasCleanDisk};
ghost use Rattle.sqlite.specs.Tree.{Trees};
ghost use Rattle.sqlite.specs.Held.{state};
ghost use Rattle.stores.specs.Faults.{is_device_fault, IsReadFault};
ghost use Rattle.durable.specs.CallFaults.{IsCallFault};
ghost use Rattle.stores.specs.Records.{Places, AreRecords, IsDamagedAt, written};
ghost use Rattle.stores.specs.declared.fault.StoreFault.TheVariants.{Reopen, NoMemory, Damaged, Full};
ghost use Rattle.store_tables.specs.Rooms.{HasNoRoom, LacksRoom};

use sqlite::{Alter, Connection};
use std::alloc::Global;
use std::marker::Model;
use store_tables::{append, bodies, rows_of};
use stores::{Readiness, StoreFault, decode_records, encode_records};
use wire::Input;

/// A store over an open connection. After a fault every call returns `Reopen`.
pub(crate) struct OpenStore<S: Alter> {
    conn: Connection<S>,
    count: u64,
    readiness: Readiness,
    alloc: Global,
}

// Written out, since a derived destructor is proved anew in each crate that drops a value.
impl<S: Alter + Drop> Drop for OpenStore<S> {
    fn drop(self) {
        let OpenStore {
            conn,
            count: _,
            readiness: _,
            alloc: _,
        } = self;
        drop(conn);
    }
}

impl<S: Alter> Model for OpenStore<S> {
    ghost use Rattle.durable.specs.Connected.{OpenStoreView, connected_code, IsSound};
    ghost use Rattle.stores.specs.Readiness.{is_stopped};

    ghost Value = { OpenStoreView S };

    ghost coded = { connected_code S.code };

    ghost view = { λ s. record { conn = s.conn; count = s.count; must_reopen = is_stopped s.readiness } };

    ghost invariant = { λ s. IsSound S.Store
        (record { conn = s.conn; count = s.count; must_reopen = is_stopped s.readiness }) };
}

/// The number of places with the batch, or `None` where it isn't below 2^62.
fn total(count: u64, more: usize) -> Option<u64>
    ensures sum { IfSome result (λ total. total ≡ count + more) }
    ensures fits { IfSome result (λ total. total < 2 ^ 62) }
    ensures none { IfNone result (count + more < 2 ^ 62 → ⊥) }
{
    let total = count.checked_add(more as u64)?;
    if total < 1 << 62 { Some(total) } else { None }
}

impl<S: Alter> OpenStore<S> {
    /// A store over a connection whose last commit has `count` places.
    pub(crate) fn new(alloc: Global, conn: Connection<S>, count: u64) -> OpenStore<S>
        requires idle { conn.in_transaction ≡ false }
        requires small { count ≤ 2 ^ 63 }
        requires ready { HasCleanDisk (state S.Store conn) → IsReady (state S.Store conn) }
        requires counted { HasCleanDisk (state S.Store conn)
            → count ≡ length (slots_in (state S.Store conn).committed.trees) }
        ensures value { result ≡ record { conn = conn; count = count; must_reopen = false } }
        ensures durable { IsHonest S.Store result → (next : Places) → MayHold S.Store result next
            → next ≡ content S.Store result }
    {
        OpenStore {
            conn,
            count,
            readiness: Readiness::Ready,
            alloc,
        }
    }

    /// Whether a fault stopped it.
    pub(crate) fn must_reopen(&self) -> bool
        ensures { result ≡ self.now.must_reopen }
    {
        self.readiness == Readiness::MustReopen
    }

    /// The connection.
    pub(crate) fn into_connection(self) -> Connection<S>
        ensures connection { result ≡ self.conn }
        ensures settled { IsHonest S.Store self → self.must_reopen ≡ false → (db : Trees)
            → (state S.Store self.conn).may_leave db → db ≡ (state S.Store self.conn).committed.trees }
        ensures store { IsHonest S.Store self → self.must_reopen ≡ false
            → IsStore (state S.Store self.conn).committed.trees }
        ensures durable { IsHonest S.Store self → self.must_reopen ≡ false → (next : Places)
            → MayHold S.Store self next → next ≡ content S.Store self }
    {
        let OpenStore {
            conn,
            count: _,
            readiness: _,
            alloc: _,
        } = self;
        conn
    }

    /// Puts the texts of a batch at the places after the content.
    fn put(&mut self, texts: &[Vec<u8>]) -> Result<(), StoreFault>
        requires runs { self.old.must_reopen ≡ false }
        ensures named { IfErr result IsCallFault }
        ensures stops { OnErr result (IsTrue self.new.must_reopen) }
        ensures runs { OnOk result (self.new.must_reopen ≡ false) }
        ensures honest { IsHonest S.Store self.new → IsHonest S.Store self.old }
        ensures ok { IsHonest S.Store self.new
            → OnOk result (content S.Store self.new ≡ followed_by (content S.Store self.old) (map items texts.now)) }
        ensures owner { IsHonest S.Store self.new → OnOk result (owner S.Store self.new ≡ owner S.Store self.old) }
        ensures refused { IsHonest S.Store self.new → IfErr result (λ e. is_device_fault e ≡ false → (next : Places)
            → MayHold S.Store self.new next → next ≡ content S.Store self.old) }
        ensures crash { IsHonest S.Store self.new → (next : Places) → MayHold S.Store self.new next
            → (next ≡ content S.Store self.old)
            ⊎ (next ≡ followed_by (content S.Store self.old) (map items texts.now)) }
        ensures full { IsHonest S.Store self.new → result ≡ Err Full
            → (self.old.count + length texts.now < 2 ^ 62 → ⊥)
            ⊎ HasNoRoom (disk_faults S.Store self.old) (disk_faults S.Store self.new)
            (map (λ body. Some body) (map items texts.now)) }
        ensures durable { IsHonest S.Store self.new → self.new.must_reopen ≡ false → (next : Places)
            → MayHold S.Store self.new next → next ≡ content S.Store self.new }
    {
        let Some(total) = total(self.count, texts.len()) else {
            self.readiness = Readiness::MustReopen;
            return Err(StoreFault::Full);
        };
        match append(&mut self.conn, self.count, texts) {
            Ok(()) => {
                self.count = total;
                Ok(())
            }
            Err(fault) => {
                self.readiness = Readiness::MustReopen;
                Err(fault)
            }
        }
    }

    /// Appends the whole batch, or nothing of it.
    pub(crate) fn append(&mut self, batch: &[Input]) -> Result<(), StoreFault>
        ensures appends { Appends (IsHonest S.Store) (content S.Store) (MayHold S.Store)
            (λ k. k.must_reopen) self.old self.new batch.now result }
        ensures owner { IsHonest S.Store self.new → self.new.must_reopen ≡ false
            → owner S.Store self.new ≡ owner S.Store self.old }
        ensures full { IsHonest S.Store self.new → result ≡ Err Full
            → LacksRoom (content S.Store self.old) batch.now (disk_faults S.Store self.old)
            (disk_faults S.Store self.new) }
    {
        if self.readiness == Readiness::MustReopen {
            return Err(StoreFault::Reopen);
        }
        if batch.is_empty() {
            return Ok(());
        }
        let Ok(texts) = encode_records(self.alloc, batch) else {
            self.readiness = Readiness::MustReopen;
            return Err(StoreFault::NoMemory);
        };
        self.put(&texts)
    }

    /// The records of the places from the first one up to, but not including, another one. There is at least one such
    /// place.
    fn records_between(&mut self, first: u64, until: u64) -> Result<Vec<Input>, StoreFault>
        requires runs { self.old.must_reopen ≡ false }
        requires some { first < until }
        requires within { until ≤ self.old.count }
        ensures honest { IsHonest S.Store self.new → IsHonest S.Store self.old }
        ensures ok { IsHonest S.Store self.new
            → IfOk result (λ inputs. AreRecords (take (until - first) (drop first
            (content S.Store self.old))) inputs.items) }
        ensures damaged { IsHonest S.Store self.new → IfErr result (λ e. (p : ℕ) → e ≡ Damaged p → (first ≤ p)
            × IsDamagedAt (p - first) (take (until - first) (drop first (content S.Store self.old)))) }
        ensures named { IfErr result IsReadFault }
        ensures stops { IfErr result (λ e. self.new.must_reopen ≡ is_device_fault e) }
        ensures runs { OnOk result (self.new.must_reopen ≡ false) }
        ensures count { self.new.count ≡ self.old.count }
        ensures kept { IsHonest S.Store self.new → self.new.must_reopen ≡ false
            → content S.Store self.new ≡ content S.Store self.old }
        ensures owner { IsHonest S.Store self.new → self.new.must_reopen ≡ false
            → owner S.Store self.new ≡ owner S.Store self.old }
        ensures crash { IsHonest S.Store self.new → (next : Places) → MayHold S.Store self.new next
            → next ≡ content S.Store self.old }
    {
        let rows = match rows_of(&mut self.conn, first, until - 1) {
            Ok(rows) => rows,
            Err(StoreFault::NoMemory) => return Err(StoreFault::NoMemory),
            Err(fault) => {
                self.readiness = Readiness::MustReopen;
                return Err(fault);
            }
        };
        let bodies = match bodies(self.alloc, &rows, first) {
            Ok(bodies) if bodies.len() as u64 <= until - first => bodies,
            Err(StoreFault::NoMemory) => return Err(StoreFault::NoMemory),
            _ => {
                self.readiness = Readiness::MustReopen;
                return Err(StoreFault::Device);
            }
        };
        decode_records(self.alloc, &bodies, first, until)
    }

    /// The records from place `from` on, at most `max`.
    pub(crate) fn load_page(&mut self, from: u64, max: u64) -> Result<Vec<Input>, StoreFault>
        ensures loads { Loads (IsHonest S.Store) (content S.Store) (MayHold S.Store)
            (λ k. k.must_reopen) self.old self.new from (take max (drop from (content S.Store self.old))) result }
        ensures owner { IsHonest S.Store self.new → self.new.must_reopen ≡ false
            → owner S.Store self.new ≡ owner S.Store self.old }
    {
        if self.readiness == Readiness::MustReopen {
            return Err(StoreFault::Reopen);
        }
        let until = self.count.min(from.saturating_add(max));
        if until <= from {
            return Ok(Vec::new(self.alloc));
        }
        self.records_between(from, until)
    }

    /// All records in their order.
    pub(crate) fn load(&mut self) -> Result<Vec<Input>, StoreFault>
        ensures loads { Loads (IsHonest S.Store) (content S.Store) (MayHold S.Store)
            (λ k. k.must_reopen) self.old self.new 0 (content S.Store self.old) result }
        ensures owner { IsHonest S.Store self.new → self.new.must_reopen ≡ false
            → owner S.Store self.new ≡ owner S.Store self.old }
    {
        self.load_page(0, self.count)
    }
}
