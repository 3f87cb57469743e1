//! The timer by which a log's clock orders clean-ups.

use std::rt::Clock as SystemClock;
use std::time::{Duration, Instant};

/// When the next clean-up is due, if the clock is to order any.
#[derive(Clone, Copy, Debug)]
pub(crate) struct Timer {
    every: Option<Duration>,
    /// When the last one was ordered, or the timer began. `None` if that time couldn't be read.
    last: Option<Instant>,
}

impl Timer {
    /// A timer that begins now.
    pub(crate) fn new<R: SystemClock>(rt: &R, every: Option<Duration>) -> Timer {
        Timer {
            every,
            last: Instant::now(rt).ok(),
        }
    }

    /// Whether a clean-up is due. If so, the next one is due after the same time again.
    pub(crate) fn is_due<R: SystemClock>(&mut self, rt: &R) -> bool {
        let Some(every) = self.every else {
            return false;
        };
        let Some(last) = self.last else {
            self.last = Instant::now(rt).ok();
            return false;
        };
        match last.elapsed(rt) {
            Ok(passed) if passed >= every => {
                self.last = Instant::now(rt).ok();
                true
            }
            _ => false,
        }
    }
}
