//! The wait for threads that begin.

use sessions::{LONGEST_START, StartBarrier, Started};
use std::rt::Clock as SystemClock;
use std::sync::Wait;
use std::time::Duration;
use units::NoMemory;

/// A number of threads that arrive at a barrier when they begin.
#[derive(Clone, Copy, Drop)]
pub struct Starting<'a> {
    pub barrier: &'a StartBarrier,
    pub threads: usize,
}

impl Starting<'_> {
    /// Waits until all of them have begun.
    ///
    /// # Errors
    ///
    /// Fails with `NoMemory` if one is missing, after `LONGEST_START` seconds in which no further one began.
    pub fn wait<R: Wait + SystemClock>(&self, rt: &R) -> Result<(), NoMemory> {
        let longest = Duration::from_secs(LONGEST_START);
        match self.barrier.wait_for(rt, self.threads, longest) {
            Started::All => Ok(()),
            Started::Missing => Err(NoMemory),
        }
    }
}
