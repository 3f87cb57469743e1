//! Journals that outlive the process that wrote them: the calls of a node's store, for any kind of store, and a store
//! in memory.
#![tactic(auto)]

mod fault;
mod laws;
mod memory_store;
mod node_store;
mod readiness;
mod records;

pub use fault::StoreFault;
pub use laws::{append_is_whole, running_store_holds_its_content};
pub use memory_store::{Kept, MemoryStore};
pub use node_store::{NodeStore, PAGE};
pub use readiness::Readiness;
pub use records::{decode_records, encode_records};
