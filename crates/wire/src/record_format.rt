//! The formats of a journal's records.
ghost use Rattle.std.specs.Prelude.{◌≡◌, ◌≤◌, length};
ghost use Rattle.wire.specs.Records.{format_fields, last_unit_of, number_of};

use units::limits::{LAST_UNIT, LAST_UNIT_OF_FORMAT_ONE};

/// A format of a journal's records.
#[derive(Clone, Copy, Debug, PartialEq, Eq)]
pub enum RecordFormat {
    /// A record has only the keys of its input, and no message in it has a unit above `LAST_UNIT_OF_FORMAT_ONE`.
    One,
    /// A record also has the key `v`, whose value is the format's number, and units go to `LAST_UNIT`.
    Two,
}

impl RecordFormat {
    /// The number of the format, in a record of format Two and in a store: 1 or 2.
    pub fn number(self) -> u8
        ensures { result ≡ number_of self }
    {
        match self {
            RecordFormat::One => 1,
            RecordFormat::Two => 2,
        }
    }

    /// How many keys a record has besides those of its input.
    pub fn keys(self) -> usize
        ensures count { result ≡ length (format_fields self) }
        ensures few { result ≤ 1 }
    {
        match self {
            RecordFormat::One => 0,
            RecordFormat::Two => 1,
        }
    }

    /// The greatest number of a unit in a message.
    pub fn last_unit(self) -> u64
        ensures { result ≡ last_unit_of self }
    {
        match self {
            RecordFormat::One => LAST_UNIT_OF_FORMAT_ONE,
            RecordFormat::Two => LAST_UNIT,
        }
    }
}
