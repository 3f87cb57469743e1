//! The scheme: the registries, their accounts, and the units that each account has at the start.
#![tactic(auto)]

mod allotments;
mod copies;
mod faults;
mod grammar;
mod listed;
mod members;
mod reading;
mod registries;
mod writing;

pub use members::{Allotment, Holder, SchemeFault, SchemeRegistry};
pub use reading::one_answer;
pub use registries::Scheme;
