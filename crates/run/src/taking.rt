//! The inputs that the threads of a run have recorded.
ghost use Rattle.protocol.specs.Input.{Input};

use std::marker::Brand;

/// The inputs that the threads of all nodes of a run have recorded. `run_script` picks it, with `Brand` for the type;
/// `Brand` itself says nothing.
pub(crate) trait Taking {
    /// A thread may have that input recorded.
    ghost takes: { Input → Type 0 };
}

impl Taking for Brand {
    ghost takes = { λ input. Unit {0} };
}
