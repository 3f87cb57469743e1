//! The progress of long work, for a user at a terminal.

use commands::Progress;
use commands::weave::Watch;
use protocol::units::Node;
use std::io::IsTerminal;
use std::time::Instant;

/// When a line of progress is written: once a second, if standard error is a terminal.
#[derive(Drop)]
struct Pace<'a> {
    rt: &'a HostRuntime,
    /// When the last line was written, or the work began. `None` if no line is written.
    last: Option<Instant>,
    /// How many lines were written, each over the one before it.
    lines: usize,
}

impl<'a> Pace<'a> {
    /// The pace of work that begins now.
    fn new(rt: &'a HostRuntime) -> Pace<'a> {
        let last = if rt.stderr().is_terminal() {
            Instant::now(rt).ok()
        } else {
            None
        };
        Pace { rt, last, lines: 0 }
    }

    /// Whether it is time for a line, which the caller then writes.
    fn should_write(&mut self) -> bool {
        let Some(last) = self.last else {
            return false;
        };
        match last.elapsed(self.rt) {
            Ok(passed) if passed.as_secs() >= 1 => {
                self.last = Instant::now(self.rt).ok();
                self.lines = self.lines.saturating_add(1);
                true
            }
            _ => false,
        }
    }

    /// Ends the line, if one was written.
    fn finished(&mut self) {
        if self.lines > 0 {
            self.lines = 0;
            let _ = eprintln!(self.rt; "");
        }
    }

    /// The work begins now.
    fn begin(&mut self) {
        if self.last.is_some() {
            self.last = Instant::now(self.rt).ok();
        }
    }
}

/// Writes how many records were read, or settled, and how many of them were woven.
#[derive(Drop)]
pub(crate) struct ProgressLine<'a> {
    pace: Pace<'a>,
    /// The work that is done with the records before they are woven.
    done: &'static str,
    records: usize,
    woven: usize,
}

impl<'a> ProgressLine<'a> {
    /// The line of an audit that begins now.
    pub(crate) fn new(rt: &'a HostRuntime) -> ProgressLine<'a> {
        ProgressLine::of(rt, "read")
    }

    /// The line of work that begins now and first does this with the records.
    fn of(rt: &'a HostRuntime, done: &'static str) -> ProgressLine<'a> {
        ProgressLine {
            pace: Pace::new(rt),
            done,
            records: 0,
            woven: 0,
        }
    }

    /// Writes the line if it is time for one.
    fn tell(&mut self) {
        if self.pace.should_write() {
            let _ = eprint!(self.pace.rt;
                "\rkyoto-link: {} records {}, {} woven",
                self.records, self.done, self.woven
            );
        }
    }
}

impl<'a> Watch for ProgressLine<'a> {
    fn read(&mut self, records: usize) {
        self.records = self.records.saturating_add(records);
        self.tell();
    }

    fn woven(&mut self) {
        self.woven = self.woven.saturating_add(1);
        self.tell();
    }

    /// Ends the line, if there is one.
    fn finished(&mut self) {
        self.pace.finished();
    }
}

/// Writes how many records of a node's store were migrated.
#[derive(Drop)]
pub(crate) struct MigrationLine<'a> {
    pace: Pace<'a>,
    node: Node,
}

impl<'a> MigrationLine<'a> {
    /// The line of a store of the node that is opened now.
    pub(crate) fn new(rt: &'a HostRuntime, node: Node) -> MigrationLine<'a> {
        MigrationLine {
            pace: Pace::new(rt),
            node,
        }
    }

    /// Ends the line, if there is one.
    pub(crate) fn finished(&mut self) {
        self.pace.finished();
    }
}

impl<'a> store_files::durable::Watch for MigrationLine<'a> {
    fn migrated(&mut self, records: u64, count: u64) {
        if self.pace.should_write() {
            let _ = eprint!(self.pace.rt;
                "\rkyoto-link: store {}: {} of {} records migrated to format 2",
                self.node, records, count
            );
        }
    }
}

/// Writes how far a run is: how many lines of its script were answered and how many records committed, and then how
/// many records were settled and woven.
#[derive(Drop)]
pub(crate) struct RunLine<'a> {
    pace: Pace<'a>,
    answered: usize,
    count: usize,
    after: ProgressLine<'a>,
}

impl<'a> RunLine<'a> {
    /// The line of a run of that many lines of a script, which begins now.
    pub(crate) fn new(rt: &'a HostRuntime, count: usize) -> RunLine<'a> {
        RunLine {
            pace: Pace::new(rt),
            answered: 0,
            count,
            after: ProgressLine::of(rt, "settled"),
        }
    }
}

impl<'a> commands::serving::Watch for RunLine<'a> {
    fn answered(&mut self) {
        self.answered = self.answered.saturating_add(1);
        if self.answered >= self.count {
            self.pace.finished();
            self.after.pace.begin();
        }
    }

    fn wants_count(&mut self) -> bool {
        self.pace.should_write()
    }

    fn committed(&mut self, records: usize) {
        let _ = eprint!(self.pace.rt;
            "\rkyoto-link: {} of {} lines answered, {} records committed",
            self.answered, self.count, records
        );
    }
}

impl<'a> Watch for RunLine<'a> {
    fn read(&mut self, records: usize) {
        self.after.read(records);
    }

    fn woven(&mut self) {
        self.after.woven();
    }

    /// Ends the line, if there is one.
    fn finished(&mut self) {
        self.pace.finished();
        self.after.finished();
    }
}

/// The terminal, if standard error is one.
#[derive(Clone, Copy)]
pub(crate) struct Terminal<'a> {
    pub(crate) rt: &'a HostRuntime,
}

impl<'a> Progress for Terminal<'a> {
    type OfAudit = ProgressLine<'a>;

    type OfRun = RunLine<'a>;

    fn of_audit(&self) -> ProgressLine<'a> {
        ProgressLine::new(self.rt)
    }

    fn of_run(&self, lines: usize) -> RunLine<'a> {
        RunLine::new(self.rt, lines)
    }
}
