use crate::same::assert_same;
use crate::stations::{ACCEPTED, COMPLETED, message};
use protocol::units::Refusal;
use protocol::units::refusal_code::{NOT_A_MESSAGE, OUT_OF_MEMORY};
use replies::Job;
use std::alloc::Global;
use test_support::again;

/// The job of a line.
fn job(alloc: Global, line: &[u8]) -> Result<Job, Refusal> {
    again!(
        Job::read(alloc, line),
        Err(Refusal {
            code: OUT_OF_MEMORY,
        }) => ()
    )
}

#[test]
fn a_job_has_its_line_and_message(rt: HostRuntime) {
    let alloc = rt.alloc();
    let (same, other) = (
        message(&rt, alloc, COMPLETED),
        message(&rt, alloc, ACCEPTED),
    );
    let job = job(alloc, COMPLETED.as_bytes()).expect(&rt, "a message");
    assert_same(&rt, job.line(), COMPLETED.as_bytes());
    assert!(rt; job.message().same(&same) && !job.message().same(&other));
    let (line, message) = job.into_parts();
    assert_same(&rt, line.as_slice(), COMPLETED.as_bytes());
    assert!(rt; message.same(&same));
    drop(message);
    drop(other);
    drop(same);
}

#[test]
fn a_line_that_is_no_message_is_no_job(rt: HostRuntime) {
    let refusal = job(rt.alloc(), b"{}").err();
    let code = NOT_A_MESSAGE;
    assert_same(&rt, refusal, Some(Refusal { code }));
}
