//! Whole seconds since the epoch, and their texts.
ghost use Rattle.std.specs.Prelude.{◌≡◌, ◌≤◌, IfOk, IfErr, IfSome, IfNone};
ghost use Rattle.units.specs.Limits.{last_moment};

use jiff::Timestamp;
use std::fmt;
use thiserror::Error;
use units::limits::LAST_MOMENT;

/// A whole second from 1970-01-01T00:00:00Z (0) to 9998-12-31T23:59:59Z (`LAST_MOMENT`).
#[derive(Clone, Copy, Debug, PartialEq, Eq, PartialOrd, Ord)]
pub struct Moment {
    /// Seconds after 1970-01-01T00:00:00Z, at most `LAST_MOMENT`.
    pub seconds: u64,
    pub ghost in_range: { seconds ≤ last_moment },
}

/// The moment as in RFC 3339, in UTC: `2026-11-29T05:00:00Z`. The text that `jiff` prints has no contract.
impl fmt::Display for Moment {
    fn fmt<W: fmt::Write>(&self, f: &mut fmt::Formatter<W>) -> fmt::Result {
        match Timestamp::from_second(self.seconds as i64) {
            Ok(instant) => write!(f, "{instant}"),
            Err(_) => Err(fmt::Error),
        }
    }
}

/// Why a text names no moment.
#[derive(Clone, Copy, Debug, PartialEq, Eq, Error)]
pub enum MomentFault {
    /// It names no instant, one with a part of a second, or one out of range.
    #[error("no moment")]
    Text,
    /// Never returned today, since reading an instant takes no memory.
    #[error("out of memory")]
    NoMemory,
}

impl Moment {
    ghost use Rattle.status.specs.Moment.{IsMomentText};
    ghost use Rattle.status.specs.declared.moment.Moment.{Moment};
    ghost use Rattle.status.specs.declared.moment.MomentFault.TheVariants.{Text};

    /// The moment that number of seconds after the epoch, where it lies in the range.
    pub fn new(seconds: u64) -> Option<Moment>
        ensures some { IfSome result (λ m. m.seconds ≡ seconds) }
        ensures none { IfNone result (seconds ≤ last_moment → ⊥) }
    {
        if seconds <= LAST_MOMENT {
            Some(Moment { seconds })
        } else {
            None
        }
    }

    /// The moment that a text names: one that `jiff` reads as an instant, that has no part of a
    /// second and lies in the range.
    pub fn read(text: &str) -> Result<Moment, MomentFault>
        ensures ok { IfOk result (λ m. IsMomentText text.now m) }
        ensures fault { IfErr result (λ e. (e ≡ Text) × ((m : Moment) → IsMomentText text.now m → ⊥)) }
    {
        let Ok(instant) = text.parse::<Timestamp>() else {
            return Err(MomentFault::Text);
        };
        let seconds = instant.as_second();
        if instant.subsec_nanosecond() != 0 || seconds < 0 {
            return Err(MomentFault::Text);
        }
        match Moment::new(seconds as u64) {
            Some(moment) => Ok(moment),
            None => Err(MomentFault::Text),
        }
    }
}
