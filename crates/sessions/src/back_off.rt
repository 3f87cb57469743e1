//! How long a sender pauses for a peer that it can't reach.
ghost use Rattle.std.specs.Prelude.{◌≡◌};
ghost use Rattle.sessions.specs.Pauses.{one_more, pause_seconds};

/// How many seconds a sender pauses at most.
const LONGEST_SENDER_PAUSE: u64 = 60;

/// An exponential back-off: how many connects with a peer have failed in a row.
#[derive(Clone, Copy, Debug, PartialEq, Eq)]
pub(crate) struct BackOff {
    failures: u32,
}

impl BackOff {
    /// None has failed.
    pub(crate) fn new() -> BackOff
        ensures { result.failures ≡ 0 }
    {
        BackOff { failures: 0 }
    }

    /// One more has failed. Failures are counted up to `u32::MAX`.
    pub(crate) fn count_failure(&mut self)
        ensures { self.new.failures ≡ one_more self.old.failures }
    {
        self.failures = self.failures.saturating_add(1);
    }

    /// A connection was made, which ends the row.
    pub(crate) fn reset(&mut self)
        ensures { self.new.failures ≡ 0 }
    {
        self.failures = 0;
    }

    /// How many seconds the sender pauses: one after the first failure of a row, twice as long after each further one,
    /// and `LONGEST_SENDER_PAUSE` at most.
    pub(crate) fn pause(&self) -> u64
        ensures { result ≡ pause_seconds self.now.failures }
    {
        if self.failures == 0 {
            return 0;
        }
        match 2u64.checked_pow(self.failures - 1) {
            Some(pause) => pause.min(LONGEST_SENDER_PAUSE),
            None => LONGEST_SENDER_PAUSE,
        }
    }
}
