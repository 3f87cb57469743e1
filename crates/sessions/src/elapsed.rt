//! How much time has passed.

use std::rt::Clock as SystemClock;
use std::time::{Duration, Instant};

/// Whether that many seconds have passed since then. They count as passed if a time isn't known: if it is `None`, or if
/// the clock can't be read now.
pub(crate) fn have_passed<R: SystemClock>(rt: &R, since: Option<Instant>, seconds: u64) -> bool {
    let Some(since) = since else {
        return true;
    };
    match since.elapsed(rt) {
        Ok(passed) => passed >= Duration::from_secs(seconds),
        Err(_) => true,
    }
}
