//! The threads of a node that serve sessions.
ghost use Rattle.std.specs.Prelude.{◌≡◌, IfSome};
ghost use Rattle.sessions.specs.Serving.{IsRepliedTo};

use crate::connections::Accepted;
use crate::network::Network;
use crate::node_threads::NodeThreads;
use crate::watched_reader::WatchedReader;
use crate::workers::{JobRequest, WorkersAnswerer};
use crossbeam_channel::Sender;
use desk::{Seat, SharedNode};
use exchanges::{Counted, SessionEnd, serve_session};
use std::alloc::Global;
use std::io::{Read, Write};
use std::rt::Clock as SystemClock;
use std::sync::{Mutex, Wait};
use std::thread;
use std::time::Duration;

/// How many threads of a node serve sessions: any number from 1 on.
pub const SESSION_THREADS: usize = 4;

/// How many failed accepts in a row stop a node.
const MOST_FAILED_ACCEPTS: u32 = 100;

/// How many milliseconds longer a session thread pauses for each failed accept in a row.
const PAUSE_STEP: u64 = 10;

/// How many milliseconds a session thread pauses at most after a failed accept.
const LONGEST_PAUSE: u64 = 100;

/// Counts one more failed accept. Returns how many have failed in a row.
fn count_failure<R: Wait>(rt: &R, failures: &Mutex<u32>) -> u32 {
    let mut count = failures.lock(rt);
    *count = count.saturating_add(1);
    *count
}

/// How long a session thread pauses once that many accepts in a row have failed.
fn pause_after(failures: u32) -> Duration {
    let pause = u64::from(failures).saturating_mul(PAUSE_STEP);
    Duration::from_millis(pause.min(LONGEST_PAUSE))
}

/// Counts one more failed accept. The desk stops if that makes `MOST_FAILED_ACCEPTS` in a row, and otherwise this
/// thread pauses.
fn stop_or_pause<D: SharedNode, R: Wait + SystemClock>(rt: &R, desk: &D, failures: &Mutex<u32>) {
    let count = count_failure(rt, failures);
    if count >= MOST_FAILED_ACCEPTS {
        desk.stop(rt);
    } else {
        thread::sleep(rt, pause_after(count));
    }
}

/// Serves one connection to its end. It ends at the next read once the desk has stopped, and when a line or the session
/// takes too long or the session has too many lines, as for `WatchedReader`. The seat has kept the receipts of the
/// answers.
///
/// Returns the connection if its stream ended after a line or was empty, and each line got a reply. Any other
/// connection is dropped.
fn serve_one<D: SharedNode, Rd: Read + Drop, Wr: Write + Drop, R: Wait + SystemClock>(
    rt: &R,
    alloc: Global,
    desk: &D,
    reader: Rd,
    writer: Wr,
    jobs: &Sender<JobRequest>,
    seat: &mut Seat,
) -> Option<(Rd, Wr)>
    ensures kept { seat.new.tickets ≡ seat.old.tickets }
    ensures replied { IfSome result
        (λ back. IsRepliedTo Rd.remaining Wr.contents reader writer back.0 back.1) }
{
    let mut reader = Counted::new(WatchedReader::new(rt, desk, reader));
    let mut writer = Counted::new(writer);
    let mut answerer = WorkersAnswerer::new(rt, alloc, desk, jobs);
    let end = serve_session(alloc, &mut reader, &mut writer, &mut answerer);
    answerer.confirm_all(seat);
    drop(answerer);
    match end {
        SessionEnd::PeerEnded => Some((reader.into_inner().into_inner(), writer.into_inner())),
        _ => None,
    }
}

impl<D: SharedNode, N: Network> NodeThreads<'_, D, N> {
    /// Accepts connections and serves each to its end, until the desk stops. A connection whose stream ended after a
    /// line is given back to the network, and one that was accepted as the desk stopped. It stops the desk if `MOST_FAILED_ACCEPTS` accepts in a row failed, at all
    /// session threads together. An accept to which nobody came isn't a failed one, and doesn't end the row.
    ///
    /// A node has `SESSION_THREADS` such threads. If the system has no thread for some of them, fewer sessions are
    /// served at a time, or none. The seat makes no record: it keeps the receipts of the thread's answers.
    pub(crate) fn serve_all<R: Wait + SystemClock>(
        &self,
        rt: &R,
        jobs: &Sender<JobRequest>,
        seat: &mut Seat,
    )
        ensures { seat.new.tickets ≡ seat.old.tickets }
    {
        for _ in rt.forever() {
            if !self.desk.is_running(rt) {
                break;
            }
            match self.network.accept(self.node) {
                Accepted::Connection(reader, writer) if !self.desk.is_running(rt) => {
                    // Its line is for the threads that come next, if any do.
                    self.network.give_back(self.node, reader, writer);
                    break;
                }
                Accepted::Connection(reader, writer) => {
                    *self.failures.lock(rt) = 0;
                    let served = serve_one(rt, self.alloc, self.desk, reader, writer, jobs, seat);
                    if let Some((reader, writer)) = served {
                        self.network.give_back(self.node, reader, writer);
                    }
                }
                Accepted::Nobody => {}
                Accepted::Failed => stop_or_pause(rt, self.desk, &self.failures),
            }
        }
    }
}
