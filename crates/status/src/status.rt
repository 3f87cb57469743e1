//! Statuses.
ghost use Rattle.std.specs.Prelude.{◌≡◌};

use std::fmt;

/// Where a transaction stands at a node.
#[derive(Clone, Copy, Debug, PartialEq, Eq)]
pub enum Status {
    Proposed,
    /// Checked without a discrepancy.
    Checked,
    Accepted,
    Rejected,
    /// The log found a discrepancy.
    Terminated,
    /// Cleaned up.
    Cancelled,
    Completed,
}

/// All statuses.
const STATUSES: &[Status] = &[
    Status::Proposed,
    Status::Checked,
    Status::Accepted,
    Status::Rejected,
    Status::Terminated,
    Status::Cancelled,
    Status::Completed,
];

impl Status {
    ghost use Rattle.std.specs.Prelude.{IfSome, IfNone};
    ghost use Rattle.status.specs.Status.{status_text};
    ghost use Rattle.status.specs.declared.status.Status.{Status};

    /// The status that a text names.
    pub fn read(text: &str) -> Option<Status>
        ensures some { IfSome result (λ s. text.now ≡ status_text s) }
        ensures none { IfNone result ((s : Status) → text.now ≡ status_text s → ⊥) }
    {
        for status in STATUSES {
            if text == status.name() {
                return Some(*status);
            }
        }
        None
    }

    /// Its name, as in messages and tables.
    pub fn name(self) -> &'static str
        ensures { result.now ≡ status_text self }
    {
        match self {
            Status::Proposed => "Proposed",
            Status::Checked => "Checked",
            Status::Accepted => "Accepted",
            Status::Rejected => "Rejected",
            Status::Terminated => "Terminated",
            Status::Cancelled => "Cancelled",
            Status::Completed => "Completed",
        }
    }
}

impl fmt::Display for Status {
    ghost use Rattle.std.specs.Prelude.{Some};
    ghost use Rattle.status.specs.Status.{status_text};

    ghost output = { λ s. Some (status_text s) };

    fn fmt<W: fmt::Write>(&self, f: &mut fmt::Formatter<W>) -> fmt::Result {
        let name = self.name();
        write!(f, "{name}")
    }
}
