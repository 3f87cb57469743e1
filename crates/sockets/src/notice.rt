//! Troubles of which an operator reads once.
ghost use Rattle.std.specs.Prelude.{◌≡◌};

use std::io::Eprint;
use std::sync::atomic::{AtomicBool, Ordering};

/// What a node lacks, or what fails it, for as long as it goes on without.
#[derive(Clone, Copy, Debug, PartialEq, Eq)]
pub enum Trouble {
    /// The process or the system has no file handle left.
    NoHandle,
    /// The system has no memory left.
    NoMemory,
    /// The clock can't be read.
    Clock,
    /// The system refuses it, for another reason.
    Refused,
}

impl Trouble {
    /// The trouble in plain words.
    fn text(self) -> &'static str {
        match self {
            Trouble::NoHandle => "no file handle is left",
            Trouble::NoMemory => "no memory is left",
            Trouble::Clock => "the clock can't be read",
            Trouble::Refused => "the system refuses it",
        }
    }
}

/// Writes of the trouble with one kind of work when it comes, and not again until it is over.
#[derive(Drop)]
pub struct Notice {
    /// The work in plain words.
    work: &'static str,
    /// Whether it has written since the trouble was last over.
    is_written: AtomicBool,
}

impl Notice {
    /// There is no trouble with this work, in plain words.
    pub fn new(work: &'static str) -> Notice
        ensures { result.work ≡ work.entry }
    {
        Notice {
            work,
            is_written: AtomicBool::new(false),
        }
    }

    /// Writes a line on standard error that names the work and the trouble, and says that the node tries again, unless
    /// one was written since the last `over`. If standard error can't be written, nothing shows the trouble.
    pub fn tell<R: Eprint>(&self, rt: &R, trouble: Trouble) {
        if !self.is_written.swap(true, Ordering::SeqCst) {
            let _ = eprintln!(rt;
                "kyoto-link: {}: {}; trying again",
                self.work,
                trouble.text()
            );
        }
    }

    /// The trouble is over: the next one is written again.
    pub fn over(&self) {
        self.is_written.store(false, Ordering::SeqCst);
    }
}
