//! Equality of messages and of inputs.
ghost use Rattle.std.specs.Prelude.{◌≡◌, ◌↔◌, IsTrue};

use crate::input::{Input, Number};
use crate::message::{Body, Message, Proposal, ProposalStatus};
use crate::notified::NotifiedStatus;
use status::{Moment, Status, TransactionId};
use units::{Code, Node};

fn are_same_nodes(a: Node, b: Node) -> bool
    ensures { IsTrue result ↔ a ≡ b }
{
    a == b
}

fn are_same_codes(a: Code, b: Code) -> bool
    ensures { IsTrue result ↔ a ≡ b }
{
    a == b
}

fn are_same_ids(a: TransactionId, b: TransactionId) -> bool
    ensures { IsTrue result ↔ a ≡ b }
{
    a == b
}

fn are_same_statuses(a: Status, b: Status) -> bool
    ensures { IsTrue result ↔ a ≡ b }
{
    a == b
}

fn are_same_stages(a: ProposalStatus, b: ProposalStatus) -> bool
    ensures { IsTrue result ↔ a ≡ b }
{
    a == b
}

fn are_same_findings(a: &[u16], b: &[u16]) -> bool
    ensures { IsTrue result ↔ a.now ≡ b.now }
{
    a == b
}

fn are_same_numbers(a: Number, b: Number) -> bool
    ensures { IsTrue result ↔ a ≡ b }
{
    a == b
}

fn are_same_moments(a: Moment, b: Moment) -> bool
    ensures { IsTrue result ↔ a ≡ b }
{
    a == b
}

fn are_both(a: bool, b: bool) -> bool
    ensures { IsTrue result ↔ a ≡ b }
{
    a == b
}

impl NotifiedStatus {
    /// Whether both are the same, with the same codes. Takes no memory.
    pub fn same(&self, other: &NotifiedStatus) -> bool
        ensures { IsTrue result ↔ self.now ≡ other.now }
    {
        are_same_statuses(self.status(), other.status())
            && are_same_findings(self.codes(), other.codes())
    }
}

impl Proposal {
    /// Whether both are the same, blocks compared as lists. Takes no memory.
    pub fn same(&self, other: &Proposal) -> bool
        ensures { IsTrue result ↔ self.now ≡ other.now }
    {
        are_same_stages(self.status, other.status) && self.content.same(&other.content)
    }
}

impl Body {
    /// Whether both are the same, blocks and codes compared as lists. Takes no memory.
    pub fn same(&self, other: &Body) -> bool
        ensures { IsTrue result ↔ self.now ≡ other.now }
    {
        match (self, other) {
            (Body::Proposal(a), Body::Proposal(b)) => a.same(b),
            (Body::Notification(a), Body::Notification(b)) => a.same(b),
            (Body::Request, Body::Request) => true,
            _ => false,
        }
    }
}

impl Message {
    /// Whether both are the same, blocks and codes compared as lists. Takes no memory.
    pub fn same(&self, other: &Message) -> bool
        ensures { IsTrue result ↔ self.now ≡ other.now }
    {
        are_same_nodes(self.from, other.from)
            && are_same_nodes(self.to, other.to)
            && are_same_ids(self.id, other.id)
            && self.body.same(&other.body)
    }
}

impl Input {
    /// Whether both are the same, blocks compared as lists. Takes no memory.
    pub fn same(&self, other: &Input) -> bool
        ensures { IsTrue result ↔ self.now ≡ other.now }
    {
        match (self, other) {
            (Input::Propose(a), Input::Propose(b)) => a.same(b),
            (Input::Request(a), Input::Request(b)) => are_same_ids(*a, *b),
            (Input::OpenAccount(a), Input::OpenAccount(b)) => are_same_numbers(*a, *b),
            (Input::CloseAccount(a), Input::CloseAccount(b)) => are_same_numbers(*a, *b),
            (Input::Ack(a), Input::Ack(b)) => are_same_numbers(*a, *b),
            (Input::CleanUp(a), Input::CleanUp(b)) => are_same_moments(*a, *b),
            (
                Input::Eligible { registry, may },
                Input::Eligible {
                    registry: other,
                    may: others,
                },
            ) => are_same_codes(*registry, *other) && are_both(*may, *others),
            (
                Input::Received { message, moment },
                Input::Received {
                    message: other,
                    moment: later,
                },
            ) => message.same(other) && are_same_moments(*moment, *later),
            _ => false,
        }
    }
}
