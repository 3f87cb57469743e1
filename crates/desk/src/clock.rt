//! The current moment.
ghost use Rattle.std.specs.Prelude.{◌≡◌, ◌≤◌, ◌/◌, min};
ghost use Rattle.std.specs.Prelude.{ℕ};
ghost use Rattle.std.specs.Duration.{as_nanos};
ghost use Rattle.units.specs.Limits.{last_moment};
ghost use Rattle.status.specs.declared.moment.Moment.{Moment};

use status::Moment;
use std::time::{Clock as SystemClock, Duration, SystemTime};
use units::limits::LAST_MOMENT;

/// A clock that gives the current moment.
pub trait Clock {
    /// It gave that moment.
    ghost tells: { Self → Moment → Type 0 };

    /// The current moment.
    fn now(&self) -> Moment
        ensures { tells self.now result };
}

/// The clock of a runtime.
#[derive(Drop)]
pub struct WallClock<R> {
    system: R,
}

impl<R: SystemClock> WallClock<R> {
    /// The clock of that runtime.
    pub fn new(system: R) -> WallClock<R> {
        WallClock { system }
    }
}

/// The last moment that is no later than this long after the epoch.
fn moment_after(since: Duration) -> Moment
    ensures { result.seconds ≡ min (as_nanos since / 1_000_000_000) last_moment }
{
    Moment {
        seconds: since.as_secs().min(LAST_MOMENT),
    }
}

impl<R: SystemClock> Clock for WallClock<R> {
    // No clause of the standard library says which time a runtime's clock returned. All that can be said here is that
    // the result is a moment; that it is the right one rests on the body of `now`.
    ghost tells = { λ _ moment. moment.seconds ≤ last_moment };

    /// The whole seconds since the epoch that have passed, at most `LAST_MOMENT`. The least moment if the runtime's
    /// clock can't be read.
    fn now(&self) -> Moment {
        let since = match SystemTime::now(&self.system) {
            Ok(time) => time
                .duration_since(SystemTime::UNIX_EPOCH)
                .unwrap_or(Duration::ZERO),
            Err(_) => Duration::ZERO,
        };
        moment_after(since)
    }
}
