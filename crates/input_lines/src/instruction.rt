//! An order to a node, or a question about a transaction.
ghost use Rattle.std.specs.Prelude.{◌≡◌, IfOk};

use status::{Status, TransactionId};
use units::NoMemory;
use wire::Input;

/// How many turns a line may wait at most.
pub const MOST_TURNS: u64 = 1_000_000;

/// An order to a node, or a question about a transaction.
#[derive(Debug, Drop)]
pub enum Instruction {
    /// The node is given this order.
    Order(Input),
    /// The node is asked for the status of the transaction.
    Status(TransactionId),
    /// The node is asked repeatedly, until the transaction has the status, at most that number of times.
    Until {
        id: TransactionId,
        status: Status,
        turns: u64,
    },
}

impl Instruction {
    /// The same order or question. Fails with `NoMemory` if memory ran out.
    pub fn copy(&self) -> Result<Instruction, NoMemory>
        ensures { IfOk result (λ i. i ≡ self.now) }
    {
        match self {
            Instruction::Order(input) => Ok(Instruction::Order(input.copy()?)),
            Instruction::Status(id) => Ok(Instruction::Status(*id)),
            Instruction::Until { id, status, turns } => Ok(Instruction::Until {
                id: *id,
                status: *status,
                turns: *turns,
            }),
        }
    }
}
