//! Events of a world, and their outcomes.
ghost use Rattle.std.specs.Prelude.{◌≡◌, ◌↔◌, IsTrue};
ghost use Rattle.protocol.specs.Outcomes.{outcome_of};

use crate::node_core::Stepped;
use status::Moment;
use units::Node;
use wire::{Input, Message};

/// One event.
#[derive(Debug, Drop)]
pub enum WorldEvent {
    /// A node takes an order, or the acknowledgement of a message that it posted.
    Take { node: Node, input: Input },
    /// A node commits the first `count` records of its tail.
    Commit { node: Node, count: u64 },
    /// A node posts the message with that key into the bag.
    Post { node: Node, key: u64 },
    /// The message with that number in the bag is delivered to its addressee, at that moment.
    Deliver { message: u64, moment: Moment },
    /// A node stops. The first `kept` records of its tail are committed, the others are lost.
    Crash { node: Node, kept: u64 },
    /// A stopped node starts.
    Restart { node: Node },
}

fn are_same_nodes(a: Node, b: Node) -> bool
    ensures { IsTrue result ↔ a ≡ b }
{
    a == b
}

fn are_same_moments(a: Moment, b: Moment) -> bool
    ensures { IsTrue result ↔ a ≡ b }
{
    a == b
}

impl WorldEvent {
    /// Whether both are the same. Takes no memory.
    pub fn same(&self, other: &WorldEvent) -> bool
        ensures { IsTrue result ↔ self.now ≡ other.now }
    {
        match (self, other) {
            (
                WorldEvent::Take { node, input },
                WorldEvent::Take {
                    node: other,
                    input: others,
                },
            ) => are_same_nodes(*node, *other) && input.same(others),
            (
                WorldEvent::Commit { node, count },
                WorldEvent::Commit {
                    node: other,
                    count: others,
                },
            ) => are_same_nodes(*node, *other) && count == others,
            (
                WorldEvent::Post { node, key },
                WorldEvent::Post {
                    node: other,
                    key: others,
                },
            ) => are_same_nodes(*node, *other) && key == others,
            (
                WorldEvent::Deliver { message, moment },
                WorldEvent::Deliver {
                    message: other,
                    moment: others,
                },
            ) => message == other && are_same_moments(*moment, *others),
            (
                WorldEvent::Crash { node, kept },
                WorldEvent::Crash {
                    node: other,
                    kept: others,
                },
            ) => are_same_nodes(*node, *other) && kept == others,
            (WorldEvent::Restart { node }, WorldEvent::Restart { node: other }) => {
                are_same_nodes(*node, *other)
            }
            _ => false,
        }
    }
}

/// The outcome of an event.
#[derive(Clone, Copy, Debug, PartialEq, Eq)]
pub enum Outcome {
    /// Recorded at that place of the node's journal, the tail included.
    Recorded(u64),
    /// It was acted on before.
    Repeat,
    /// It came too late to act on.
    Late,
    /// Refused with that code.
    Refused(u16),
    Done,
    NotPossible,
}

impl From<Stepped> for Outcome {
    ghost from_gives = { λ stepped outcome. outcome ≡ outcome_of stepped };

    fn from(stepped: Stepped) -> Outcome {
        match stepped {
            Stepped::Recorded(place) => Outcome::Recorded(place as u64),
            Stepped::Repeat => Outcome::Repeat,
            Stepped::Late => Outcome::Late,
        }
    }
}

/// A message in the bag, with the node that posted it and its key there.
#[derive(Debug)]
pub struct Posted {
    pub node: Node,
    /// The number of the message among those that the node sent, counted from 0.
    pub key: u64,
    pub message: Message,
}

// Written out, since a derived destructor is proved anew in each crate that lets a value go.
impl Drop for Posted {
    fn drop(self) {
        let Posted {
            node: _,
            key: _,
            message,
        } = self;
        drop(message);
    }
}
