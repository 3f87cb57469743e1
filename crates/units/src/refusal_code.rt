//! The codes of refusals, and those of the findings of checks. `specs/RefusalCodes.antt` has their twins for contracts.

/// The line is no message of the grammar.
pub const NOT_A_MESSAGE: u16 = 41;

/// The message is addressed to another node.
pub const OTHER_ADDRESSEE: u16 = 42;

/// The sender is no node that may send to this one.
pub const SENDER_NOT_ALLOWED: u16 = 43;

/// The message isn't for that party to send: a proposal whose identifier has another code than its sender's, Accepted
/// or Rejected from another registry than the acquirer, Completed from another than the initiator; at a registry a
/// proposal for another acquirer, of its own code, or with a unit twice.
pub const WRONG_PARTY: u16 = 44;

/// The identifier is known with another content.
pub const OTHER_CONTENT: u16 = 45;

/// The tables have no row for the input.
pub const NO_ROW: u16 = 46;

/// A notification of a transaction that isn't known.
pub const UNKNOWN_TRANSACTION: u16 = 47;

/// The node has stopped.
pub const NODE_STOPPED: u16 = 48;

/// The journal is full.
pub const JOURNAL_FULL: u16 = 49;

/// Memory ran out.
pub const OUT_OF_MEMORY: u16 = 50;

/// There is no block, or more than `MOST_BLOCKS`.
pub const WRONG_BLOCK_COUNT: u16 = 101;

/// The numbers of a block are out of order or out of range.
pub const BLOCK_OUT_OF_RANGE: u16 = 102;

/// A unit is in two blocks, or is there already.
pub const BLOCKS_OVERLAP: u16 = 103;

/// The account is unknown or closed.
pub const ACCOUNT_NOT_OPEN: u16 = 104;

/// A unit isn't held in that account with that kind.
pub const UNIT_NOT_HELD: u16 = 105;

/// A unit is reserved for a transfer.
pub const UNIT_RESERVED: u16 = 106;

/// The acquiring registry is unknown, or is the same registry.
pub const NO_SUCH_ACQUIRER: u16 = 107;

/// The number of the receiving account is out of range.
pub const ACCOUNT_OUT_OF_RANGE: u16 = 108;

/// The registry has given its last transaction number.
pub const TRANSACTIONS_USED_UP: u16 = 109;

/// The account isn't in the scheme.
pub const UNKNOWN_ACCOUNT: u16 = 110;

/// The account is open already, or closed already.
pub const ALREADY_SO: u16 = 111;

/// The account holds units.
pub const HOLDS_UNITS: u16 = 112;

/// A transfer into the account is accepted.
pub const TRANSFER_ACCEPTED: u16 = 113;

/// The registry isn't in the scheme.
pub const UNKNOWN_REGISTRY: u16 = 114;

/// The registry hasn't proposed the transaction.
pub const NOT_PROPOSED_HERE: u16 = 115;

/// The transaction no longer has the status Proposed.
pub const NO_LONGER_PROPOSED: u16 = 116;

/// The acquirer is unknown, or is the initiator.
pub const WRONG_ACQUIRER: u16 = 201;

/// A unit is in two blocks.
pub const UNIT_REPEATED: u16 = 202;

/// A unit isn't allotted.
pub const UNIT_NOT_ALLOTTED: u16 = 203;

/// A unit is owned by a registry other than the initiator.
pub const OTHER_OWNER: u16 = 204;

/// A unit is in another transfer.
pub const OTHER_TRANSFER: u16 = 205;

/// A unit is of another kind.
pub const OTHER_KIND: u16 = 206;

/// The initiator isn't eligible.
pub const INITIATOR_NOT_ELIGIBLE: u16 = 207;

/// The acquirer isn't eligible.
pub const ACQUIRER_NOT_ELIGIBLE: u16 = 208;

/// The receiving account isn't in the scheme.
pub const RECEIVER_UNKNOWN: u16 = 301;

/// The receiving account is closed.
pub const RECEIVER_CLOSED: u16 = 302;

/// A unit is held already.
pub const UNIT_ALREADY_HELD: u16 = 303;

/// A block is of a kind that the acquirer doesn't take.
pub const KIND_NOT_TAKEN: u16 = 304;
