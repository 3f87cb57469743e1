//! The faults with which a command fails.

ghost use Rattle.std.specs.Prelude.{◌≡◌};
ghost use Rattle.command_faults.specs.Faults.{exit_status, of_store};

use crate::setup_fault::SetupFault;
use std::error::Error;
use std::fmt;
use stores::StoreFault;
use streams::{ReadFault, WriteFault};
use units::{NoMemory, Node};

/// The fault of a line of an input.
#[derive(Clone, Copy, Debug, PartialEq, Eq)]
pub enum Cause {
    /// The scheme's line is no JSON.
    NotJson,
    /// The scheme's line is JSON with a key or a value outside the grammar of schemes.
    Shape,
    /// The scheme has more than `MOST_REGISTRIES` registries, `MOST_ACCOUNTS` accounts in one, or
    /// `MOST_ALLOTTED` allotted blocks.
    TooMany,
    /// The scheme has fewer than `LEAST_REGISTRIES` registries.
    TooFew,
    /// Two registries of the scheme have the same code.
    CodeTwice,
    /// An account number occurs twice in one registry.
    AccountTwice,
    /// An allotment is to an account that its registry doesn't have.
    UnknownAccount,
    /// A unit is allotted twice.
    AllotmentOverlap,
    /// The line is no event.
    Order,
    /// There is no line, or the line has no newline.
    Truncated,
    /// The line is over its limit, or contains the first byte over the limit of the input.
    TooLong,
}

impl fmt::Display for Cause {
    ghost use Rattle.std.specs.Prelude.{Some};
    ghost use Rattle.command_faults.specs.Faults.{cause_text};

    ghost output = { λ c. Some (cause_text c) };

    fn fmt<W: fmt::Write>(&self, f: &mut fmt::Formatter<W>) -> fmt::Result {
        match self {
            Cause::NotJson => write!(f, "not-json"),
            Cause::Shape => write!(f, "shape"),
            Cause::TooMany => write!(f, "too-many"),
            Cause::TooFew => write!(f, "too-few"),
            Cause::CodeTwice => write!(f, "code-twice"),
            Cause::AccountTwice => write!(f, "account-twice"),
            Cause::UnknownAccount => write!(f, "unknown-account"),
            Cause::AllotmentOverlap => write!(f, "allotment-overlap"),
            Cause::Order => write!(f, "order"),
            Cause::Truncated => write!(f, "truncated"),
            Cause::TooLong => write!(f, "too-long"),
        }
    }
}

/// Why a command failed, and where.
#[derive(Clone, Copy, Debug, PartialEq, Eq)]
pub enum OpFault {
    /// The first line of the input that has a fault, counted from 1, and its fault.
    Input { line: u64, cause: Cause },
    /// The input could not be read.
    Read,
    /// The output could not be written, except for that number of its first bytes.
    Write(u64),
    /// The node's store has that fault. Lack of memory is `NoMemory`: see `store_fault`.
    Store { node: Node, fault: StoreFault },
    /// No run leads to the journals of the stores. When they are followed as far as they go, that node is the first
    /// with a record left, and the record is at that place.
    Stuck { node: Node, place: usize },
    /// The notes of that node's threads aren't those that one thread alone would have got, or its journal isn't
    /// recorded under the scheme.
    Unsettled { node: Node },
    /// The command can't begin as its words ask, with that fault.
    Setup(SetupFault),
    /// The line of the script with that number, counted from 1, is the first that was not carried out, and the words ask
    /// for such a line to be a fault. Everything was written.
    Undone(u64),
    /// Out of memory.
    NoMemory,
}

impl fmt::Display for OpFault {
    ghost use Rattle.std.specs.Prelude.{Some};
    ghost use Rattle.command_faults.specs.Faults.{op_fault_text};

    ghost output = { λ fault. Some (op_fault_text fault) };

    fn fmt<W: fmt::Write>(&self, f: &mut fmt::Formatter<W>) -> fmt::Result {
        match *self {
            OpFault::Input { line, cause } => write!(f, "line {line}: {cause}"),
            OpFault::Read => write!(f, "read failed"),
            OpFault::Write(count) => write!(f, "write failed after {count} bytes"),
            OpFault::Store { node, fault } => write!(f, "store {node}: {fault}"),
            OpFault::Stuck { node, place } => write!(f, "stuck at {node} {place}"),
            OpFault::Unsettled { node } => write!(f, "unsettled {node}"),
            OpFault::Setup(fault) => write!(f, "{fault}"),
            OpFault::Undone(line) => write!(f, "line {line}: not carried out"),
            OpFault::NoMemory => write!(f, "out of memory"),
        }
    }
}

impl Error for OpFault {}

impl From<NoMemory> for OpFault {
    ghost use Rattle.command_faults.specs.declared.fault.OpFault.TheVariants as faults;

    ghost from_gives = { λ _ e. e ≡ faults.NoMemory };

    fn from(_: NoMemory) -> OpFault {
        OpFault::NoMemory
    }
}

impl From<SetupFault> for OpFault {
    ghost use Rattle.command_faults.specs.declared.fault.OpFault.TheVariants as faults;

    ghost from_gives = { λ f e. e ≡ faults.Setup f };

    fn from(fault: SetupFault) -> OpFault {
        OpFault::Setup(fault)
    }
}

impl From<ReadFault> for OpFault {
    ghost use Rattle.command_faults.specs.Faults.{of_reading};

    ghost from_gives = { λ f e. e ≡ of_reading f };

    fn from(fault: ReadFault) -> OpFault {
        match fault {
            ReadFault::Read(_) => OpFault::Read,
            ReadFault::NoMemory(_) => OpFault::NoMemory,
        }
    }
}

impl From<WriteFault> for OpFault {
    ghost use Rattle.command_faults.specs.declared.fault.OpFault.TheVariants as faults;

    ghost from_gives = { λ f e. e ≡ faults.Write f.written };

    fn from(fault: WriteFault) -> OpFault {
        OpFault::Write(fault.written as u64)
    }
}

impl OpFault {
    /// The program's exit status.
    pub fn status(&self) -> u8
        ensures { result ≡ exit_status self.now }
    {
        match self {
            OpFault::Stuck { .. } | OpFault::Unsettled { .. } | OpFault::Undone(_) => 1,
            OpFault::Input { .. } | OpFault::Read | OpFault::Write(_) => 3,
            OpFault::Store { .. } => 4,
            OpFault::Setup(fault) => fault.status(),
            OpFault::NoMemory => 5,
        }
    }
}

/// The command's fault for a fault of the node's store: `NoMemory` for lack of memory, else `Store`.
pub fn store_fault(node: Node, fault: StoreFault) -> OpFault
    ensures { result ≡ of_store node fault }
{
    match fault {
        StoreFault::NoMemory => OpFault::NoMemory,
        _ => OpFault::Store { node, fault },
    }
}
