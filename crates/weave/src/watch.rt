//! Reports on how far the work on journals has come.

/// Receives reports while records are read and woven. It has no influence on the results.
pub trait Watch {
    /// Reports that a node's records were read, and their number.
    fn read(&mut self, records: usize);

    /// Reports that one more record was woven.
    fn woven(&mut self);

    /// Reports that all records were woven.
    fn finished(&mut self);
}

/// A watch that ignores all reports.
#[derive(Clone, Copy, Debug)]
pub struct Nobody;

impl Watch for Nobody {
    fn read(&mut self, _records: usize) {}

    fn woven(&mut self) {}

    fn finished(&mut self) {}
}
