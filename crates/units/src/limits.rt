//! The limits that every crate keeps, each stated once. `specs/Limits.antt` has their twins for
//! contracts.

/// The greatest number of a unit. The first is 1.
pub const LAST_UNIT: u64 = 999_999_999_999_999;

/// The greatest number of a unit in the first format of a journal's records.
pub const LAST_UNIT_OF_FORMAT_ONE: u64 = 999_999_999_999;

/// The greatest number of an account. The first is 1.
pub const LAST_ACCOUNT: u64 = 999_999_999;

/// The greatest number that a registry gives a transaction. The first is 1.
pub const LAST_TRANSACTION: u32 = 999_999;

/// The greatest number of blocks of a proposal. It has at least one.
pub const MOST_BLOCKS: usize = 16;

/// The greatest number of records of a node's journal.
pub const MOST_RECORDS: u64 = 1_000_000;

/// The age, in seconds, from which the log may clean a transaction up: 24 hours.
pub const CLEAN_UP_AGE: u64 = 86_400;

/// The greatest number of bytes of the line of a message or of a reply, without its newline.
pub const LONGEST_LINE: usize = 8_192;

/// The least number of registries of a scheme.
pub const LEAST_REGISTRIES: usize = 2;

/// The greatest number of registries of a scheme.
pub const MOST_REGISTRIES: usize = 32;

/// The greatest number of accounts of a registry of a scheme.
pub const MOST_ACCOUNTS: usize = 1_000;

/// The greatest number of blocks that a scheme may allot, in all its registries together.
pub const MOST_ALLOTTED: usize = 10_000;

/// The last moment, in seconds since 1970-01-01T00:00:00Z: 9998-12-31T23:59:59Z.
pub const LAST_MOMENT: u64 = 253_370_764_799;

/// The greatest number of decimal digits of a number in a message, a record or an order.
pub const MOST_DIGITS: usize = 18;

/// The first number that has more than `MOST_DIGITS` digits: 10 to the power of 18.
pub const TOO_LONG: u64 = 1_000_000_000_000_000_000;
