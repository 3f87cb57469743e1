//! The replies of a node to lines, by its desk.
#![tactic(auto)]

mod answer;
mod desk_answerer;
mod job;
mod pending;

pub use answer::Answer;
pub use desk_answerer::DeskAnswerer;
pub use job::Job;
pub use pending::{Begun, PendingAnswer, answer_job, begin_job};
