use crate::failing_streams::Endless;
use crate::same::assert_same;
use crate::standing::standing_at;
use crate::stations::{COMPLETED, NodeDesk, StillClock, UNKNOWN, desk_of, refused};
use crate::worked_nodes::registry;
use desk::{Seat, SharedNode};
use exchanges::{Counted, SessionEnd, serve_session};
use protocol::units::NoMemory;
use protocol::units::refusal_code::{NODE_STOPPED, NOT_A_MESSAGE, OUT_OF_MEMORY};
use replies::{Answer, DeskAnswerer};
use std::alloc::Global;
use std::io::Read;
use std::process::Abort;
use std::rt::Clock;
use std::sync::Wait;
use test_support::failing_streams::Full;
use test_support::{READING, again};

/// Asserts that these answers refuse with these codes, one after the other, and which of them a journal judged.
fn assert_refused(rt: &impl Abort, answers: &[Answer], codes: &[u16]) {
    assert_same(rt, answers.len(), codes.len());
    for (answer, code) in answers.iter().zip(codes) {
        assert_same(rt, answer.reply(), refused(rt, *code));
        assert_same(rt, answer.receipt().is_some(), *code == UNKNOWN);
    }
}

/// Asserts that these answers refuse with these codes, as far as there are answers, or for lack of memory. If a node
/// that has stopped refuses a line for lack of memory, its session goes on, so there may be one more answer.
fn assert_refused_so_far(rt: &impl Abort, answers: &[Answer], codes: &[u16]) {
    let without = refused(rt, OUT_OF_MEMORY);
    for (answer, code) in answers.iter().zip(codes) {
        let reply = answer.reply();
        assert!(rt; reply == without || reply == refused(rt, *code));
    }
}

/// Whether one of these answers refuses for lack of memory.
fn lacks_memory(rt: &impl Abort, answers: &[Answer]) -> bool {
    let without = refused(rt, OUT_OF_MEMORY);
    answers.iter().any(|answer| answer.reply() == without)
}

/// How a session at the desk over that reader ends; its answers have to refuse with these codes. `NoMemory` if there
/// was no memory for it or for an answer.
fn served_once<R: Read + Drop>(
    rt: &(impl Wait + Clock + Abort),
    alloc: Global,
    desk: &NodeDesk,
    reader: R,
    codes: &[u16],
) -> Result<SessionEnd, NoMemory> {
    let seat = Seat::new(alloc);
    let mut answerer = DeskAnswerer::new(rt, alloc, desk, seat, &StillClock);
    let mut reader = Counted::new(reader);
    let mut writer = Counted::new(Full { room: usize::MAX });
    let end = serve_session(alloc, &mut reader, &mut writer, &mut answerer);
    assert_same(rt, writer.failures(), 0);
    let lacks_memory = lacks_memory(rt, answerer.answers());
    if end == SessionEnd::NoMemory || lacks_memory {
        assert_refused_so_far(rt, answerer.answers(), codes);
        drop(answerer);
        return Err(NoMemory);
    }
    assert_refused(rt, answerer.answers(), codes);
    drop(answerer);
    Ok(end)
}

/// The same, but a session that runs out of memory leaves the desk as it was, and another one takes its place.
fn served<R: Read + Copy + Drop>(
    rt: &(impl Wait + Clock + Abort),
    alloc: Global,
    desk: &NodeDesk,
    reader: R,
    codes: &[u16],
) -> SessionEnd {
    let seat = Seat::new(alloc);
    let before = standing_at(rt, alloc, desk, &seat);
    let end = again!(
        served_once(rt, alloc, desk, reader, codes),
        Err(NoMemory) => assert_same(rt, standing_at(rt, alloc, desk, &seat), before)
    );
    drop(seat);
    end.expect(rt, "memory")
}

/// An empty line, a message about a transfer that the node doesn't know, and a line that is cut.
#[test]
fn node_session(rt: HostRuntime) {
    let alloc = rt.alloc();
    let bytes = format!(in alloc; "\n{COMPLETED}\n{{\"ca").expect(&rt, READING);
    let desk = desk_of(&rt, alloc, registry(&rt, "NZ"));
    let end = served(
        &rt,
        alloc,
        &desk,
        bytes.as_bytes(),
        &[NOT_A_MESSAGE, UNKNOWN],
    );
    assert_same(&rt, end, SessionEnd::Truncated);
    drop(desk);
}

/// Two lines that write a message: the first one is refused, and ends the session.
#[test]
fn session_of_a_stopped_node(rt: HostRuntime) {
    let alloc = rt.alloc();
    let bytes = format!(in alloc; "{COMPLETED}\n{COMPLETED}\n").expect(&rt, READING);
    let desk = desk_of(&rt, alloc, registry(&rt, "NZ"));
    desk.stop(&rt);
    let end = served(&rt, alloc, &desk, bytes.as_bytes(), &[NODE_STOPPED]);
    assert_same(&rt, end, SessionEnd::Stopped);
    drop(desk);
}

/// Lines of 99 letters without end: each one is refused, and the session ends at its limit.
#[test]
fn session_of_an_endless_stream(rt: HostRuntime) {
    let alloc = rt.alloc();
    let desk = desk_of(&rt, alloc, registry(&rt, "NZ"));
    let codes = [NOT_A_MESSAGE; 10_000];
    let end = served(&rt, alloc, &desk, Endless { given: 0 }, &codes);
    assert_same(&rt, end, SessionEnd::TurnLimit);
    drop(desk);
}
