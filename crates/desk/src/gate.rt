//! Spots at which a desk lets a caller hold its threads, as tests do.

use units::Node;

/// A moment of a desk's call.
#[derive(Clone, Copy, Debug, PartialEq, Eq)]
pub enum Spot {
    /// The desk of that node holds the lock of its state, and hasn't asked the state yet.
    Locked(Node),
}

/// A gate that a desk passes at each spot of a call.
pub trait Gate {
    /// Returns once the thread may go on.
    fn pass(&self, spot: Spot);
}

/// The gate that lets every thread pass at once.
#[derive(Clone, Copy, Debug, PartialEq, Eq)]
pub struct OpenGate;

impl Gate for OpenGate {
    fn pass(&self, _spot: Spot) {}
}
