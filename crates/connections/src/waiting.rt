//! The connections of a port that no session has.
ghost use Rattle.std.specs.Prelude.{◌≡◌, ◌<◌, ◌≤◌, ◌+◌, ◌↔◌, ◌++◌, ◌∷◌, [], IfOk, OnOk, OnErr, IfErr, IsSome, IfSome, IfNone, IsTrue, option_map};
ghost use Rattle.std.specs.BTreeMap as tree;
ghost use Rattle.std.specs.BTreeMap.{btree_map_len, is_at, IsUnchanged};
ghost use Rattle.std.specs.Map.{remove_entry};
ghost use Rattle.std.specs.Option.{option_copied, option_to_list};
ghost use Rattle.std.specs.Ordering.{nat_cmp};
ghost use Rattle.std.specs.Duration.{as_nanos};
ghost use Rattle.std.specs.VecDeque.{deque_len, deque_capacity};
ghost use Rattle.connections.specs.declared.waiting.TheConstants.{MOST_CONNECTIONS};
ghost use Rattle.connections.specs.Waiting.{AreBelow, AreBelow-prop, begun, connection_of, first_late, is_late, left_for_one, line_of, nanos_left, time_left};

use std::alloc::{AllocError, Global};
use std::collections::{BTreeMap, VecDeque};
use std::time::{Duration, Instant};

/// How many connections without a session a port has at most.
pub const MOST_CONNECTIONS: usize = 1_024;

/// How many seconds a connection waits for a whole line.
pub const LONGEST_LINE_TIME: u64 = 10;

/// A connection that waits for a line.
#[derive(Drop)]
pub struct Waiter<T> {
    connection: T,
    /// When it began to wait.
    since: Instant,
}

/// A connection on which a line has come.
#[derive(Drop)]
pub struct Ready<T> {
    pub connection: T,
    /// How many bytes a session is to read of it.
    pub length: u64,
}

/// Whether a wait that began then has lasted longer than `LONGEST_LINE_TIME` seconds.
fn is_late(now: Instant, since: Instant) -> bool
    ensures { result ≡ is_late now since }
{
    now.duration_since(since) > Duration::from_secs(LONGEST_LINE_TIME)
}

/// How long a wait that began then may last on: `LONGEST_LINE_TIME` seconds in all. 0 if it is late.
fn left_of(now: Instant, since: Instant) -> Duration
    ensures { as_nanos result ≡ nanos_left now since }
{
    Duration::from_secs(LONGEST_LINE_TIME).saturating_sub(now.duration_since(since))
}

/// The connections of a port that no session has: those that wait for a line, each under a number, and those on which a
/// line has come. Numbers ascend in the order in which the connections began to wait, and none is used twice.
pub struct Connections<T> {
    waiting: BTreeMap<usize, Waiter<T>>,
    ready: VecDeque<Ready<T>>,
    next: usize,
    ghost numbered: { AreBelow next waiting.entries } by { AreBelow-prop next waiting.entries },
    ghost few: { btree_map_len waiting + deque_len ready ≤ MOST_CONNECTIONS },
    ghost room: { MOST_CONNECTIONS ≤ deque_capacity ready },
}

// Written out, since a derived destructor is proved anew in each crate that lets a value go.
impl<T: Drop> Drop for Connections<T> {
    fn drop(self) {
        let Connections {
            waiting,
            ready,
            next: _,
        } = self;
        drop(waiting);
        drop(ready);
    }
}

#[tactic(auto, using(crate::proofs::WaitingNumbers::put_last, crate::proofs::WaitingNumbers::below_push, crate::proofs::WaitingNumbers::below_remove, crate::proofs::WaitingNumbers::below_rest))]
impl<T: Drop> Connections<T> {
    /// No connections. The numbers begin at `first`.
    pub fn new(alloc: Global, first: usize) -> Result<Connections<T>, AllocError>
        ensures waiting { IfOk result (λ c. c.waiting.entries ≡ []) }
        ensures ready { IfOk result (λ c. c.ready.items ≡ []) }
        ensures next { IfOk result (λ c. c.next ≡ first) }
    {
        let ready = VecDeque::with_capacity(alloc, MOST_CONNECTIONS)?;
        Ok(Connections {
            waiting: BTreeMap::new(alloc),
            ready,
            next: first,
        })
    }

    /// The number of the connection that begins to wait next.
    pub fn next_number(&self) -> usize
        ensures { result ≡ self.now.next }
    {
        self.next
    }

    /// Whether there are `MOST_CONNECTIONS`.
    pub fn is_full(&self) -> bool
        ensures { IsTrue result ↔ (MOST_CONNECTIONS ≤ btree_map_len self.now.waiting + deque_len self.now.ready) }
    {
        self.waiting.len() + self.ready.len() >= MOST_CONNECTIONS
    }

    /// Whether a line has come on at least one.
    pub fn has_line(&self) -> bool
        ensures { IsTrue result ↔ (0 < deque_len self.now.ready) }
    {
        !self.ready.is_empty()
    }

    /// Whether a line has come on each of `MOST_CONNECTIONS`, so that none can be taken out for a further one.
    pub fn is_full_of_lines(&self) -> bool
        ensures { IsTrue result ↔ (MOST_CONNECTIONS ≤ deque_len self.now.ready) }
    {
        self.ready.len() >= MOST_CONNECTIONS
    }

    /// The waiting connection with that number, if there is one.
    pub fn get(&self, number: usize) -> Option<&T>
        ensures { option_copied result ≡ option_map connection_of (tree.get nat_cmp self.now.waiting number) }
    {
        match self.waiting.get(&number) {
            Some(waiter) => Some(&waiter.connection),
            None => None,
        }
    }

    /// The connection begins to wait, with the next number.
    ///
    /// # Errors
    ///
    /// Returns the connection if memory ran out, and nothing changed.
    pub fn add(&mut self, connection: T, since: Instant) -> Result<(), T>
        requires { btree_map_len self.old.waiting + deque_len self.old.ready < MOST_CONNECTIONS }
        ensures ok { OnOk result (self.new.waiting.entries ≡ self.old.waiting.entries ++ (self.old.next, begun connection since) ∷ []) }
        ensures next { OnOk result (self.new.next ≡ self.old.next + 1) }
        ensures err { IfErr result (λ c. c ≡ connection) }
        ensures unchanged { OnErr result (IsUnchanged self.old.waiting self.new.waiting × (self.new.next ≡ self.old.next)) }
        ensures ready { self.new.ready ≡ self.old.ready }
    {
        let number = self.next;
        let Some(next) = number.checked_add(1) else {
            return Err(connection);
        };
        match self.waiting.insert(number, Waiter { connection, since }) {
            Ok(_) => {
                self.next = next;
                Ok(())
            }
            Err(refused) => {
                let (_, waiter) = refused.value;
                Err(waiter.connection)
            }
        }
    }

    /// Takes out the connection that has waited longest for a line, with its number. `None` if none waits.
    pub fn take_longest(&mut self) -> Option<(usize, Waiter<T>)>
        ensures first { self.old.waiting.entries ≡ option_to_list result ++ self.new.waiting.entries }
        ensures variant { IsSome result ↔ (0 < btree_map_len self.old.waiting) }
        ensures ready { self.new.ready ≡ self.old.ready }
        ensures next { self.new.next ≡ self.old.next }
    {
        self.waiting.pop_first()
    }

    /// The number of the connection that has waited longest for a line, if it has waited longer than
    /// `LONGEST_LINE_TIME` seconds. `None` if it hasn't, or if none waits.
    pub fn late(&self, now: Instant) -> Option<usize>
        ensures { result ≡ first_late now self.now.waiting.entries }
    {
        let (number, longest) = self.waiting.first_key_value()?;
        if is_late(now, longest.since) {
            Some(*number)
        } else {
            None
        }
    }

    /// How long nothing has to be done if no line comes: until the connection that has waited longest for one is late,
    /// or for `LONGEST_LINE_TIME` seconds if none waits.
    pub fn time_left(&self, now: Instant) -> Duration
        ensures { as_nanos result ≡ time_left now self.now.waiting.entries }
    {
        match self.waiting.first_key_value() {
            Some((_, longest)) => left_of(now, longest.since),
            None => Duration::from_secs(LONGEST_LINE_TIME),
        }
    }

    /// Drops the connection that has waited longest for a line, if there are `MOST_CONNECTIONS`. Returns whether there
    /// is room for a further one then.
    pub fn make_room(&mut self) -> bool
        ensures room { IsTrue result ↔ (btree_map_len self.new.waiting + deque_len self.new.ready < MOST_CONNECTIONS) }
        ensures waiting { self.new.waiting.entries ≡ left_for_one self.old.waiting.entries (deque_len self.old.ready) }
        ensures ready { self.new.ready ≡ self.old.ready }
        ensures next { self.new.next ≡ self.old.next }
    {
        if self.is_full() {
            drop(self.take_longest());
        }
        !self.is_full()
    }

    /// Takes out the waiting connection with that number, if there is one.
    pub fn take(&mut self, number: usize) -> Option<T>
        ensures value { result ≡ option_map connection_of (tree.get nat_cmp self.old.waiting number) }
        ensures others { self.new.waiting.entries ≡ remove_entry (is_at (nat_cmp number)) self.old.waiting.entries }
        ensures ready { self.new.ready ≡ self.old.ready }
        ensures next { self.new.next ≡ self.old.next }
    {
        let waiter = self.waiting.remove(&number)?;
        Some(waiter.connection)
    }

    /// A line has come on the connection with that number. If it waits, it waits no more, and a session is to read
    /// `length` bytes of it.
    pub fn line_came(&mut self, number: usize, length: u64)
        ensures others { self.new.waiting.entries ≡ remove_entry (is_at (nat_cmp number)) self.old.waiting.entries }
        ensures ready { self.new.ready.items ≡ self.old.ready.items
            ++ option_to_list (option_map (line_of length) (tree.get nat_cmp self.old.waiting number)) }
        ensures next { self.new.next ≡ self.old.next }
    {
        if let Some(waiter) = self.waiting.remove(&number) {
            self.ready.push_back_reserved(Ready {
                connection: waiter.connection,
                length,
            });
        }
    }

    /// Takes out the connection on which a line came first. `None` if there is none.
    pub fn take_ready(&mut self) -> Option<Ready<T>>
        ensures first { self.old.ready.items ≡ option_to_list result ++ self.new.ready.items }
        ensures variant { IsSome result ↔ (0 < deque_len self.old.ready) }
        ensures waiting { self.new.waiting ≡ self.old.waiting }
        ensures next { self.new.next ≡ self.old.next }
    {
        self.ready.pop_front()
    }
}
