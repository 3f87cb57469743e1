//! The inputs that a node takes and records in its journal.
ghost use Rattle.std.specs.Prelude.{◌≡◌, ◌<◌, IfOk, IfSome, IfNone};
ghost use Rattle.units.specs.Limits.{too_long};

use crate::message::Message;
use status::{Moment, Order, TransactionId};
use units::limits::TOO_LONG;
use units::{Code, NoMemory};

/// A number of at most `MOST_DIGITS` digits.
#[derive(Clone, Copy, Debug, PartialEq, Eq, PartialOrd, Ord)]
pub struct Number {
    /// Less than 10 to the power of `MOST_DIGITS`.
    pub value: u64,
    pub ghost short: { value < too_long },
}

/// An input that a node takes and records in its journal.
#[derive(Debug, Drop)]
pub enum Input {
    /// An order to transfer units.
    Propose(Order),
    /// An order to ask the log to cancel that transaction.
    Request(TransactionId),
    /// An order to open the account of that number.
    OpenAccount(Number),
    /// An order to close the account of that number.
    CloseAccount(Number),
    /// The message that the node sent with that key was received.
    Ack(Number),
    /// An order to cancel all transfers that were Checked `CLEAN_UP_AGE` seconds or more before that moment.
    CleanUp(Moment),
    /// An order that says whether that registry may take part in transfers from here on.
    Eligible { registry: Code, may: bool },
    /// A message, and the moment at which it came.
    Received { message: Message, moment: Moment },
}

impl Number {
    /// That number, if it has at most `MOST_DIGITS` digits.
    pub fn new(value: u64) -> Option<Number>
        ensures some { IfSome result (λ n. n.value ≡ value) }
        ensures none { IfNone result (value < too_long → ⊥) }
    {
        if value < TOO_LONG {
            Some(Number { value })
        } else {
            None
        }
    }
}

impl Input {
    /// An equal input, or `NoMemory`.
    pub fn copy(&self) -> Result<Input, NoMemory>
        ensures { IfOk result (λ i. i ≡ self.now) }
    {
        match self {
            Input::Propose(order) => Ok(Input::Propose(order.copy()?)),
            Input::Request(id) => Ok(Input::Request(*id)),
            Input::OpenAccount(account) => Ok(Input::OpenAccount(*account)),
            Input::CloseAccount(account) => Ok(Input::CloseAccount(*account)),
            Input::Ack(key) => Ok(Input::Ack(*key)),
            Input::CleanUp(moment) => Ok(Input::CleanUp(*moment)),
            Input::Eligible { registry, may } => Ok(Input::Eligible {
                registry: *registry,
                may: *may,
            }),
            Input::Received { message, moment } => Ok(Input::Received {
                message: message.copy()?,
                moment: *moment,
            }),
        }
    }
}
