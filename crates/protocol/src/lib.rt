//! The protocol of transfers, as definitions: the records, results and messages of nodes, and the steps of a world of
//! nodes at each event. Start at `specs/Pieces.antt`; docs/DEFINITIONS.md leads on. The crate also has the interface of
//! a node's core, the recording of acknowledgements, the replay of journals into a core, and the nodes of a scheme by
//! their indices.
#![tactic(auto)]

mod decision;
mod event;
mod messages;
mod node_core;
mod nodes;
mod recording;
mod refusals;
mod replay_fault;
mod resuming;

pub use decision::{Decision, Stale};
pub use event::{Outcome, Posted, WorldEvent};
pub use messages::one_message;
pub use node_core::{NodeCore, Stepped};
pub use nodes::{index_of, is_log, is_registry, node_at, nodes_of};
pub use recording::acknowledge;
pub use refusals::refusals_have_causes;
pub use replay_fault::ReplayFault;
pub use resuming::{replay, resume};

// The crates whose types the definitions use, for users who need only these types.
pub use records;
pub use scheme;
pub use status;
pub use units;
pub use wire;
