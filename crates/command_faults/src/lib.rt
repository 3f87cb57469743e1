//! The faults with which a command fails, with their exit statuses; files with a scheme; and the writing of a whole
//! text.
#![tactic(auto)]

mod fault;
mod scheme_file;
mod setup_fault;
mod writing;

pub use fault::{Cause, OpFault, store_fault};
pub use scheme_file::{node_of, read_scheme, scheme_of};
pub use setup_fault::SetupFault;
pub use writing::write_out;
