//! Records, by their effect on the messages.
ghost use Rattle.std.specs.Prelude.{◌≡◌, option_copied, slice_get};
ghost use Rattle.records.specs.Totals.{total};

/// The effect of a record: the number of messages after it, and the message that it acknowledges, if any.
#[derive(Clone, Copy, Debug, PartialEq, Eq)]
pub(crate) struct Record {
    pub sends: usize,
    pub acknowledges: Option<usize>,
}

/// The number of messages after these records.
pub(crate) fn sends_after(records: &[Record]) -> usize
    ensures { result ≡ total 0 records.now }
{
    match records.last() {
        Some(record) => record.sends,
        None => 0,
    }
}

/// The record at that place.
pub(crate) fn record_at(records: &[Record], place: usize) -> Option<&Record>
    ensures { option_copied result ≡ slice_get records.now place }
{
    records.get(place)
}
