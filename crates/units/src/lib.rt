//! Registry codes, nodes, units and blocks of units, their texts, and the parts that all other crates share: refusals,
//! out of memory and lists.
#![tactic(auto)]

mod block;
mod block_set;
mod code;
mod counting;
mod interval;
mod items;
pub mod limits;
mod memory;
mod ordering;
mod overlap;
mod refusal;
pub mod refusal_code;
mod text;
mod unit_map;

pub use block::{Block, BlockFault, Kind, Period, RawBlock, Unit};
pub use block_set::BlockSet;
pub use code::{Code, Node};
pub use interval::{Interval, Label, blocks_of};
pub use items::Items;
pub use memory::NoMemory;
pub use ordering::order_of_units;
pub use overlap::overlaps;
pub use refusal::Refusal;
pub use text::{cut, number};
pub use unit_map::{Span, UnitMap};
