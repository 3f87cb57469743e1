//! The status tables of the three roles.
ghost use Rattle.std.specs.Prelude.{◌≡◌};
ghost use Rattle.status.specs.Rows.{initiator_row, log_row, acquirer_row, row_of};

use crate::rows::{RecordedStatus, Role, Row, RowInput};
use crate::status::Status;

fn initiator_row(old: RecordedStatus, input: RowInput) -> Row
    ensures { result ≡ initiator_row old input }
{
    use RecordedStatus::{Stands, Unknown};
    match (old, input) {
        (Unknown, RowInput::Propose) => Row::Move(Status::Proposed),
        (Stands(Status::Proposed), RowInput::Notified(Status::Accepted)) => Row::Move(
            Status::Completed,
        ),
        (Stands(Status::Proposed), RowInput::Notified(Status::Rejected)) => Row::Move(
            Status::Rejected,
        ),
        (Stands(Status::Proposed), RowInput::Notified(Status::Terminated)) => Row::Move(
            Status::Terminated,
        ),
        (Stands(Status::Proposed), RowInput::Notified(Status::Cancelled)) => Row::Move(
            Status::Cancelled,
        ),
        (Stands(Status::Proposed), RowInput::RequestOrder) => Row::Move(Status::Proposed),
        (Stands(Status::Completed), RowInput::Notified(Status::Accepted))
        | (Stands(Status::Rejected), RowInput::Notified(Status::Rejected))
        | (Stands(Status::Terminated), RowInput::Notified(Status::Terminated))
        | (Stands(Status::Cancelled), RowInput::Notified(Status::Cancelled))
        | (Stands(Status::Proposed), RowInput::RepeatedRequestOrder) => Row::Repeat,
        _ => Row::Refused,
    }
}

fn log_row(old: RecordedStatus, input: RowInput) -> Row
    ensures { result ≡ log_row old input }
{
    use RecordedStatus::{Bare, Stands, Unknown};
    match (old, input) {
        (Unknown, RowInput::ProposalWithoutFinding) => Row::Move(Status::Checked),
        (Unknown, RowInput::ProposalWithFindings) => Row::Move(Status::Terminated),
        (Unknown, RowInput::Request) => Row::Move(Status::Cancelled),
        (Stands(Status::Checked), RowInput::Notified(Status::Accepted)) => Row::Move(
            Status::Accepted,
        ),
        (Stands(Status::Checked), RowInput::Notified(Status::Rejected)) => Row::Move(
            Status::Rejected,
        ),
        (Stands(Status::Checked), RowInput::CleanUp) => Row::Move(Status::Cancelled),
        (Stands(Status::Checked), RowInput::Request) => Row::Move(Status::Cancelled),
        (Stands(Status::Accepted), RowInput::Notified(Status::Completed)) => Row::Move(
            Status::Completed,
        ),
        (Stands(_), RowInput::EqualProposal)
        | (Stands(Status::Accepted), RowInput::Notified(Status::Accepted))
        | (Stands(Status::Completed), RowInput::Notified(Status::Accepted))
        | (Stands(Status::Rejected), RowInput::Notified(Status::Rejected))
        | (Stands(Status::Completed), RowInput::Notified(Status::Completed)) => Row::Repeat,
        (Stands(Status::Cancelled), RowInput::Notified(Status::Accepted))
        | (Stands(Status::Cancelled), RowInput::Notified(Status::Rejected))
        | (Stands(Status::Accepted), RowInput::Request)
        | (Stands(Status::Rejected), RowInput::Request)
        | (Stands(Status::Terminated), RowInput::Request)
        | (Stands(Status::Completed), RowInput::Request)
        | (Stands(Status::Cancelled), RowInput::Request)
        | (Bare, RowInput::Request)
        | (Bare, RowInput::ProposalWithoutFinding)
        | (Bare, RowInput::ProposalWithFindings) => Row::Late,
        _ => Row::Refused,
    }
}

fn acquirer_row(old: RecordedStatus, input: RowInput) -> Row
    ensures { result ≡ acquirer_row old input }
{
    use RecordedStatus::{Bare, Stands, Unknown};
    match (old, input) {
        (Unknown, RowInput::ProposalWithoutFinding) => Row::Move(Status::Accepted),
        (Unknown, RowInput::ProposalWithFindings) => Row::Move(Status::Rejected),
        (Unknown, RowInput::Notified(Status::Cancelled)) => Row::Move(Status::Cancelled),
        (Stands(Status::Accepted), RowInput::Notified(Status::Completed)) => Row::Move(
            Status::Completed,
        ),
        (Stands(Status::Accepted), RowInput::Notified(Status::Cancelled)) => Row::Move(
            Status::Cancelled,
        ),
        (Stands(_), RowInput::EqualProposal)
        | (Stands(Status::Completed), RowInput::Notified(Status::Completed))
        | (Stands(Status::Cancelled), RowInput::Notified(Status::Cancelled))
        | (Bare, RowInput::Notified(Status::Cancelled)) => Row::Repeat,
        (Stands(Status::Rejected), RowInput::Notified(Status::Cancelled))
        | (Bare, RowInput::ProposalWithoutFinding)
        | (Bare, RowInput::ProposalWithFindings) => Row::Late,
        _ => Row::Refused,
    }
}

/// The result of that role's table for an input about a transaction whose recorded status is `old`.
pub fn row(role: Role, old: RecordedStatus, input: RowInput) -> Row
    ensures { result ≡ row_of role old input }
{
    match role {
        Role::Initiator => initiator_row(old, input),
        Role::Itl => log_row(old, input),
        Role::Acquirer => acquirer_row(old, input),
    }
}
