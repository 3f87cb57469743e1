//! Watching the progress of a command.

/// Watches the progress of a command. It changes no result of the command.
pub trait Progress {
    /// The watch for the records that an audit reads and weaves.
    type OfAudit: weave::Watch + Drop;
    /// The watch for a script's lines, and for the records that a run settles and weaves.
    type OfRun: serving::Watch + weave::Watch + Drop;

    /// An audit begins.
    fn of_audit(&self) -> Self::OfAudit;

    /// A run of that many lines of a script begins.
    fn of_run(&self, lines: usize) -> Self::OfRun;
}
