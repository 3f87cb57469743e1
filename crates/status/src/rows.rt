//! The rows of the status tables: their inputs and their results.

use crate::status::Status;

/// A node's part in a transaction. A registry is the initiator where the identifier's code is its
/// own, otherwise the acquirer.
#[derive(Clone, Copy, Debug, PartialEq, Eq)]
pub enum Role {
    Initiator,
    Itl,
    Acquirer,
}

/// The status of a transaction that a node has recorded.
#[derive(Clone, Copy, Debug, PartialEq, Eq)]
pub enum RecordedStatus {
    /// No record names it.
    Unknown,
    /// It has a record without content: it was cancelled before its proposal came.
    Bare,
    /// It has this status, with its content.
    Stands(Status),
}

/// An input about a transaction at a node, by the input columns of the tables.
#[derive(Clone, Copy, Debug, PartialEq, Eq)]
pub enum RowInput {
    /// A propose order that passed all checks.
    Propose,
    /// A proposal without a finding. At the acquirer it is Checked.
    ProposalWithoutFinding,
    /// A proposal with findings. At the acquirer it is Checked.
    ProposalWithFindings,
    /// A proposal equal to the one recorded.
    EqualProposal,
    /// A notification of that status. At the acquirer, one of Completed is in this column only where none of the
    /// transaction's units is held there.
    Notified(Status),
    /// A clean-up that finds the transaction expired.
    CleanUp,
    /// An order to ask for cancellation, the first for its transaction.
    RequestOrder,
    /// An order to ask for cancellation, after one was recorded for the transaction.
    RepeatedRequestOrder,
    /// A registry's request for cancellation, at the log.
    Request,
}

/// The result of a table for an input.
#[derive(Clone, Copy, Debug, PartialEq, Eq)]
pub enum Row {
    /// The input is recorded, and the transaction then has this status.
    Move(Status),
    /// The input was acted on before. Nothing moves.
    Repeat,
    /// The input comes too late to act on. Nothing moves.
    Late,
    /// The table has no such pair: refusal `NO_ROW`.
    Refused,
}
