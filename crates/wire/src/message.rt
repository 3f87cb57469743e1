//! Messages between registries and the log.
ghost use Rattle.std.specs.Prelude.{◌≡◌, IfOk};
ghost use Rattle.wire.specs.NotifiedStatuses.{notified_status, notified_codes, proposal_status, IsNotified};

use crate::notified::NotifiedStatus;
use status::{Content, Status, TransactionId};
use units::{NoMemory, Node};

/// Where a proposal stands: Proposed on its way to the log, Checked on its way to the acquirer.
#[derive(Clone, Copy, Debug, PartialEq, Eq)]
pub enum ProposalStatus {
    Proposed,
    Checked,
}

/// A transfer that a registry proposes, and that the log passes on.
#[derive(Debug)]
pub struct Proposal {
    pub status: ProposalStatus,
    pub content: Content,
}

// Written out, since a derived destructor is proved anew in each crate that lets a value go.
impl Drop for Proposal {
    fn drop(self) {
        let Proposal { status: _, content } = self;
        drop(content);
    }
}

/// The content of a message about its transaction.
#[derive(Debug)]
pub enum Body {
    Proposal(Proposal),
    /// The status of the transfer at the sender.
    Notification(NotifiedStatus),
    /// A registry asks the log to cancel the transfer that it proposed.
    Request,
}

// Written out, since a derived destructor is proved anew in each crate that lets a value go.
impl Drop for Body {
    fn drop(self) {
        match self {
            Body::Proposal(proposal) => drop(proposal),
            Body::Notification(notified) => drop(notified),
            Body::Request => {}
        }
    }
}

/// A message from one node to another, about one transaction.
#[derive(Debug)]
pub struct Message {
    pub from: Node,
    pub to: Node,
    /// The transaction; the code in its id is that of the initiator.
    pub id: TransactionId,
    pub body: Body,
}

// Written out, since a derived destructor is proved anew in each crate that lets a value go.
impl Drop for Message {
    fn drop(self) {
        let Message {
            from: _,
            to: _,
            id: _,
            body,
        } = self;
        drop(body);
    }
}

impl ProposalStatus {
    /// This status as a status of transfers.
    pub fn status(self) -> Status
        ensures { result ≡ proposal_status self }
    {
        match self {
            ProposalStatus::Proposed => Status::Proposed,
            ProposalStatus::Checked => Status::Checked,
        }
    }
}

impl NotifiedStatus {
    /// The status that it notifies.
    pub fn status(&self) -> Status
        ensures { result ≡ notified_status self.now }
    {
        match self {
            NotifiedStatus::Accepted => Status::Accepted,
            NotifiedStatus::Rejected(_) => Status::Rejected,
            NotifiedStatus::Terminated(_) => Status::Terminated,
            NotifiedStatus::Cancelled => Status::Cancelled,
            NotifiedStatus::Completed => Status::Completed,
        }
    }

    /// The codes of the findings: none except at Rejected and Terminated.
    pub fn codes(&self) -> &[u16]
        ensures value { result.now ≡ notified_codes self.now }
        ensures valid { IsNotified self.now }
    {
        match self {
            NotifiedStatus::Rejected(codes) => codes.as_slice(),
            NotifiedStatus::Terminated(codes) => codes.as_slice(),
            _ => &[],
        }
    }

    /// An equal status, or `NoMemory`.
    pub fn copy(&self) -> Result<NotifiedStatus, NoMemory>
        ensures { IfOk result (λ n. n ≡ self.now) }
    {
        match self {
            NotifiedStatus::Accepted => Ok(NotifiedStatus::Accepted),
            NotifiedStatus::Rejected(codes) => Ok(NotifiedStatus::Rejected(codes.copy()?)),
            NotifiedStatus::Terminated(codes) => Ok(NotifiedStatus::Terminated(codes.copy()?)),
            NotifiedStatus::Cancelled => Ok(NotifiedStatus::Cancelled),
            NotifiedStatus::Completed => Ok(NotifiedStatus::Completed),
        }
    }
}

impl Proposal {
    /// An equal proposal, or `NoMemory`.
    pub fn copy(&self) -> Result<Proposal, NoMemory>
        ensures { IfOk result (λ p. p ≡ self.now) }
    {
        let content = self.content.copy()?;
        Ok(Proposal {
            status: self.status,
            content,
        })
    }
}

impl Body {
    /// An equal body, or `NoMemory`.
    pub fn copy(&self) -> Result<Body, NoMemory>
        ensures { IfOk result (λ b. b ≡ self.now) }
    {
        match self {
            Body::Proposal(proposal) => Ok(Body::Proposal(proposal.copy()?)),
            Body::Notification(notified) => Ok(Body::Notification(notified.copy()?)),
            Body::Request => Ok(Body::Request),
        }
    }
}

impl Message {
    /// An equal message, or `NoMemory`.
    pub fn copy(&self) -> Result<Message, NoMemory>
        ensures { IfOk result (λ m. m ≡ self.now) }
    {
        let body = self.body.copy()?;
        Ok(Message {
            from: self.from,
            to: self.to,
            id: self.id,
            body,
        })
    }
}
