//! A thread that sends a node's messages to one peer.
ghost use Rattle.sessions.specs.Pauses.{RowAfter};
ghost use Rattle.sessions.specs.Sending.{IsReceivedBy, Passes};
ghost use Rattle.sessions.specs.Threads.{AreOfThread};

use crate::back_off::BackOff;
use crate::elapsed::have_passed;
use crate::network::Network;
use crate::sending::{Keys, Sent, send_next};
use desk::{Bell, RoomBell, Seat, SharedNode};
use std::alloc::Global;
use std::rt::Clock as SystemClock;
use std::sync::Wait;
use std::time::Instant;
use units::Node;

/// How a pass ended.
#[derive(Clone, Copy, Debug, PartialEq, Eq)]
pub(crate) enum PassEnd {
    /// After the last of its messages, or because the desk has stopped.
    Done,
    /// At a message for which no connection could be made.
    Unreachable,
    /// Memory ran out.
    NoMemory,
}

/// Tries each unacknowledged message to a peer once, in the order of the keys, of those that were committed when the
/// pass began. It leaves the messages that are committed while it runs, so that it ends however many they are, and a
/// message that wasn't received is soon tried again. Ends early if no connection could be made, so that a peer that is
/// down costs one connect a pass, and if memory ran out. `back_off` counts the connect that failed, and each connection
/// that was made ends the row before. The seat forgets its notes.
fn send_pass<D: SharedNode, N: Network, R: Wait + SystemClock>(
    rt: &R,
    alloc: Global,
    desk: &D,
    network: &N,
    peer: Node,
    seat: &mut Seat,
    back_off: &mut BackOff,
) -> PassEnd
    requires { AreOfThread D.is_to_send
        (IsReceivedBy (N.leads network.now) N.Reader.remaining N.Writer.contents) (N.Clock.tells network.now)
        seat.old }
    ensures taken { AreOfThread D.is_to_send
        (IsReceivedBy (N.leads network.now) N.Reader.remaining N.Writer.contents) (N.Clock.tells network.now)
        seat.new }
    ensures row { RowAfter back_off.old.failures back_off.new.failures result }
    ensures passes { Passes D.is_to_send (IsReceivedBy (N.leads network.now) N.Reader.remaining N.Writer.contents)
        D.have_sent peer seat.old seat.new result }
{
    let end = desk.committed_sends(rt);
    let mut from: usize = 0;
    for _ in rt.forever() {
        let sent = send_next(rt, alloc, desk, seat, network, peer, Keys { from, end });
        seat.forget_notes();
        match sent {
            Sent::Received(key) | Sent::NotReceived(key) => {
                back_off.reset();
                // It is below `end`, so the sum can't be too large.
                from = key + 1;
            }
            Sent::Unreachable(_) => {
                back_off.count_failure();
                return PassEnd::Unreachable;
            }
            Sent::Nothing | Sent::Left(_) => return PassEnd::Done,
            Sent::NoMemory => return PassEnd::NoMemory,
        }
    }
    unreachable!()
}

/// Waits until that many seconds have passed, or the desk has stopped. Looks at the desk whenever that bell of it
/// rings, as it does when the desk stops, and every `LONGEST_QUIET` seconds, and so may wait up to that much longer. If
/// the time can't be read, it waits once.
fn pause<D: SharedNode, R: Wait + SystemClock>(rt: &R, desk: &D, bell: &RoomBell, seconds: u64) {
    let begun = Instant::now(rt).ok();
    for _ in rt.forever() {
        // Read before the desk is looked at, so that no ring between the two is missed.
        let rings = bell.rings(rt);
        if !desk.is_running(rt) {
            return;
        }
        bell.wait(rt, rings);
        if have_passed(rt, begun, seconds) {
            return;
        }
    }
}

/// Sends the unacknowledged messages to a peer, until the desk stops: again whenever a message to it was committed, and
/// every `LONGEST_QUIET` seconds, so that a message that wasn't received is sent again even if nothing happens at the
/// node. If a pass ends because no connection could be made, the next one begins after a pause: of one second after the
/// first such pass, and of twice as long after each further one in a row, up to 60 seconds. A connection that was made
/// ends the row.
pub(crate) fn send_all<D: SharedNode, N: Network, R: Wait + SystemClock>(
    rt: &R,
    alloc: Global,
    desk: &D,
    network: &N,
    peer: Node,
    seat: &mut Seat,
)
    requires { AreOfThread D.is_to_send
        (IsReceivedBy (N.leads network.now) N.Reader.remaining N.Writer.contents) (N.Clock.tells network.now)
        seat.old }
    ensures { AreOfThread D.is_to_send
        (IsReceivedBy (N.leads network.now) N.Reader.remaining N.Writer.contents) (N.Clock.tells network.now)
        seat.new }
{
    let mut back_off = BackOff::new();
    for _ in rt.forever() {
        let bell = desk.bells().of_peer(peer);
        // Read before the desk is looked at, so that no ring between the two is missed. A pass leaves only messages that
        // were committed after it began. The bell rings once for each such commit, after it and so after this number was
        // read: the wait for another number doesn't hold up the next pass.
        let rings = bell.rings(rt);
        if !desk.is_running(rt) {
            break;
        }
        match send_pass(rt, alloc, desk, network, peer, seat, &mut back_off) {
            PassEnd::Done | PassEnd::NoMemory => bell.wait(rt, rings),
            PassEnd::Unreachable => pause(rt, desk, bell, back_off.pause()),
        }
    }
}
