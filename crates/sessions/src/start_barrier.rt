//! A count of the threads that have begun.

use std::rt::Clock as SystemClock;
use std::sync::{Condvar, CondvarTimeouts, Mutex, Wait};
use std::time::Duration;

/// How many seconds a wait for threads waits for the next one of them.
pub const LONGEST_START: u64 = 5;

/// Whether all threads have begun that were waited for.
#[derive(Clone, Copy, Debug, PartialEq, Eq)]
pub enum Started {
    /// All have.
    All,
    /// Fewer have. If the system has no thread for one of them, another thread does its work, and may not begin it
    /// before it has ended its own.
    Missing,
}

/// How many threads have begun, under a lock of its own.
pub struct StartBarrier {
    begun: Mutex<usize>,
    changed: Condvar,
}

// Written out, since a derived destructor is proved anew in each crate that lets a value go.
impl Drop for StartBarrier {
    fn drop(self) {
        let StartBarrier { begun, changed } = self;
        drop(begun);
        drop(changed);
    }
}

impl StartBarrier {
    /// A barrier at which no thread has arrived.
    pub fn new() -> StartBarrier {
        StartBarrier {
            begun: Mutex::new(0),
            changed: Condvar::new(),
        }
    }

    /// Counts one more thread that has begun. Wakes those that wait for it.
    pub fn arrive<R: Wait>(&self, rt: &R) {
        let mut begun = self.begun.lock(rt);
        *begun = begun.saturating_add(1);
        self.changed.notify_all();
    }

    /// How many threads have begun.
    fn count<R: Wait>(&self, rt: &R) -> usize {
        *self.begun.lock(rt)
    }

    /// How many threads have begun, once that number differs from `seen`, and after `limit` at the latest.
    fn next_count<R: Wait + SystemClock>(&self, rt: &R, seen: usize, limit: Duration) -> usize {
        let (begun, _) = self
            .changed
            .wait_timeout_while(rt, self.begun.lock(rt), limit, |now| *now == seen);
        *begun
    }

    /// Waits until that many threads have begun. Returns `Missing` once no further one has begun for as long as
    /// `limit`.
    pub fn wait_for<R: Wait + SystemClock>(
        &self,
        rt: &R,
        threads: usize,
        limit: Duration,
    ) -> Started {
        let mut seen = self.count(rt);
        for _ in rt.forever() {
            if seen >= threads {
                return Started::All;
            }
            let begun = self.next_count(rt, seen, limit);
            if begun == seen {
                return Started::Missing;
            }
            seen = begun;
        }
        unreachable!()
    }
}
