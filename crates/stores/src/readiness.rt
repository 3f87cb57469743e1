//! Whether a store takes calls.

/// Whether a store takes calls, or must be reopened first.
#[derive(Clone, Copy, Debug, PartialEq, Eq)]
pub enum Readiness {
    Ready,
    MustReopen,
}
