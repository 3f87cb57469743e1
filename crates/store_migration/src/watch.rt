//! Watches for the progress of a migration.

/// A watch that gets reports while a store is migrated. It has no effect on the result.
pub trait Watch {
    /// `records` of the store's `count` records have been rewritten. Called after every 256 records, and after the last
    /// one.
    fn migrated(&mut self, records: u64, count: u64);
}

/// A watch that ignores all reports.
#[derive(Clone, Copy, Debug)]
pub struct Nobody;

impl Watch for Nobody {
    fn migrated(&mut self, _records: u64, _count: u64) {}
}
