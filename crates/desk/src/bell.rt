//! Wakes the threads that wait for something to happen at a desk.
ghost use Rattle.std.specs.Prelude.{◌≡◌, ◌+◌, ◌%◌, ◌^◌};

use std::rt::Clock as SystemClock;
use std::sync::{Condvar, CondvarTimeouts, Mutex, Wait};
use std::time::Duration;

/// How many seconds a thread waits at a bell at most, before it looks again by itself.
pub const LONGEST_QUIET: u64 = 1;

/// A number that threads wait for to change.
pub trait Bell: Drop {
    /// A bell whose number is 0.
    fn new() -> Self;

    /// The current number.
    fn rings<R: Wait>(&self, rt: &R) -> u64;

    /// Adds one to the number, which wraps around to 0, and wakes those that wait.
    fn ring<R: Wait>(&self, rt: &R);

    /// Returns once the number differs from `rings`, and after `LONGEST_QUIET` seconds at the latest, so that a waiting
    /// thread looks again even if nothing rang.
    fn wait<R: Wait + SystemClock>(&self, rt: &R, rings: u64);
}

/// A bell under a lock of its own.
pub struct RoomBell {
    rings: Mutex<u64>,
    rung: Condvar,
}

// Written out, since a derived destructor is proved anew in each crate that lets a value go.
impl Drop for RoomBell {
    fn drop(self) {
        let RoomBell { rings, rung } = self;
        drop(rings);
        drop(rung);
    }
}

/// The number after one more ring.
fn rung_once(rings: u64) -> u64
    ensures { result ≡ (rings + 1) % 2 ^ 64 }
{
    rings.wrapping_add(1)
}

impl Bell for RoomBell {
    fn new() -> RoomBell {
        RoomBell {
            rings: Mutex::new(0),
            rung: Condvar::new(),
        }
    }

    fn rings<R: Wait>(&self, rt: &R) -> u64 {
        *self.rings.lock(rt)
    }

    fn ring<R: Wait>(&self, rt: &R) {
        {
            let mut rings = self.rings.lock(rt);
            *rings = rung_once(*rings);
        }
        // The threads that wake take the lock, so it is let go before.
        self.rung.notify_all();
    }

    fn wait<R: Wait + SystemClock>(&self, rt: &R, rings: u64) {
        let longest = Duration::from_secs(LONGEST_QUIET);
        let _now = self
            .rung
            .wait_timeout_while(rt, self.rings.lock(rt), longest, |now| *now == rings);
    }
}
