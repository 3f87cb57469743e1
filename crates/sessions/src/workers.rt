//! Lines that session threads hand to job workers.
ghost use Rattle.std.specs.Prelude.{◌≡◌, ◌⊎◌, [], IfOk};
ghost use Rattle.units.specs.RefusalCodes.{not_a_message, out_of_memory};
ghost use Rattle.replies.specs.Answers.{IsRefusedBy};
ghost use Rattle.replies.specs.Lines.{IsNoLine};
ghost use Rattle.sessions.specs.Sending.{IsReceivedBy};
ghost use Rattle.sessions.specs.Threads.{AreOfThread};

use crate::network::Network;
use crate::node_threads::NodeThreads;
use crossbeam_channel::{Receiver, RecvTimeoutError, Sender};
use desk::{LONGEST_QUIET, Seat, SharedNode};
use exchanges::Answerer;
use replies::{Answer, Begun, Job, begin_job};
use std::alloc::Global;
use std::rt::Clock as SystemClock;
use std::sync::Wait;
use std::time::Duration;
use units::NoMemory;
use wire::Reply;

/// A job that a worker is asked to do, and the channel by which the worker returns its result.
#[derive(Drop)]
pub(crate) struct JobRequest {
    job: Job,
    back: Sender<Begun>,
}

/// Replies to the lines of one session by the workers, waits for the commits, and keeps the answers: each line with its
/// receipt until the session ends. The limits of the session, which `WatchedReader` keeps, bound their number: it reads
/// no more once it has read 1,024 newlines or has lasted 60 seconds.
#[derive(Drop)]
pub(crate) struct WorkersAnswerer<'a, D: SharedNode, R: Wait> {
    rt: &'a R,
    alloc: Global,
    desk: &'a D,
    jobs: &'a Sender<JobRequest>,
    answers: Vec<Answer>,
}

impl<'a, D: SharedNode, R: Wait> WorkersAnswerer<'a, D, R> {
    /// Replies by the workers of that desk, which take the jobs of this channel. There are no answers yet.
    pub(crate) fn new(
        rt: &'a R,
        alloc: Global,
        desk: &'a D,
        jobs: &'a Sender<JobRequest>,
    ) -> WorkersAnswerer<'a, D, R>
        ensures { result.answers.items ≡ [] }
    {
        WorkersAnswerer {
            rt,
            alloc,
            desk,
            jobs,
            answers: Vec::new(alloc),
        }
    }

    /// Has the seat keep the receipts of the answers.
    pub(crate) fn confirm_all(&self, seat: &mut Seat)
        ensures { seat.new.tickets ≡ seat.old.tickets }
    {
        for answer in self.answers.as_slice() {
            if let Some(receipt) = answer.receipt() {
                seat.confirm(receipt);
            }
        }
    }
}

/// Waits for the next value that comes by the channel. `None` if no sender is left, or if the desk has stopped and no
/// value has come for `LONGEST_QUIET` seconds.
fn receive<T: Drop, D: SharedNode, R: Wait + SystemClock>(
    rt: &R,
    desk: &D,
    channel: &Receiver<T>,
) -> Option<T> {
    for _ in rt.forever() {
        match channel.recv_timeout(rt, Duration::from_secs(LONGEST_QUIET)) {
            Ok(value) => return Some(value),
            Err(RecvTimeoutError::Disconnected) => return None,
            Err(RecvTimeoutError::Timeout) => {
                if !desk.is_running(rt) {
                    return None;
                }
            }
        }
    }
    unreachable!()
}

/// Hands a job to a worker, and waits for its result. `None` if the desk has stopped before a worker took it, or if the
/// channel has had no room for `LONGEST_QUIET` seconds, since no worker takes jobs any more then. Fails with `NoMemory`
/// if memory ran out, and the job was handed to none.
fn hand_over<D: SharedNode, R: Wait + SystemClock>(
    rt: &R,
    alloc: Global,
    desk: &D,
    jobs: &Sender<JobRequest>,
    job: Job,
) -> Result<Option<Begun>, NoMemory> {
    let Ok((back, begun)) = crossbeam_channel::bounded(alloc, 1) else {
        drop(job);
        return Err(NoMemory);
    };
    let request = JobRequest { job, back };
    let handed = jobs.send_timeout(rt, request, Duration::from_secs(LONGEST_QUIET));
    let is_handed = handed.is_ok();
    drop(handed);
    let taken = if is_handed {
        receive(rt, desk, &begun)
    } else {
        None
    };
    drop(begun);
    Ok(taken)
}

/// The answer to a job with that result, after the commit if it waits for one.
fn answer_begun<D: SharedNode, R: Wait + SystemClock>(rt: &R, desk: &D, begun: Begun) -> Answer {
    match begun {
        Begun::Answered(answer) => answer,
        Begun::Pending(pending) => pending.wait(rt, desk),
    }
}

/// The answer to a line. If the line writes a message, a worker has the desk take the message, and this thread waits
/// for the commit. If no worker takes it, the node has stopped. Fails with `NoMemory` if memory ran out, and the line
/// was handed to no worker.
fn answer_line<D: SharedNode, R: Wait + SystemClock>(
    rt: &R,
    alloc: Global,
    desk: &D,
    jobs: &Sender<JobRequest>,
    line: &[u8],
) -> Result<Answer, NoMemory>
    ensures line { IfOk result (λ answer. answer.line ≡ line.now) }
    ensures unread { IfOk result
        (λ answer. IsNoLine line.now
        → IsRefusedBy not_a_message answer.reply ⊎ IsRefusedBy out_of_memory answer.reply) }
{
    let job = match Job::read(alloc, line) {
        Ok(job) => job,
        Err(refusal) => return Answer::unread(alloc, line, refusal),
    };
    let Ok(copy) = Vec::from_slice(alloc, line) else {
        drop(job);
        return Err(NoMemory);
    };
    if let Some(begun) = hand_over(rt, alloc, desk, jobs, job)? {
        let answer = answer_begun(rt, desk, begun);
        // A worker's answer is to the job that it was handed.
        if answer.line() == line {
            return Ok(answer);
        }
        drop(answer);
    }
    Ok(Answer::stopped(copy))
}

impl<'a, D: SharedNode, R: Wait + SystemClock> Answerer for WorkersAnswerer<'a, D, R> {
    ghost use Rattle.replies.specs.Answers.{given_of};

    ghost given = { λ s. given_of s.answers.items };

    fn answer(&mut self, line: &[u8]) -> Result<Reply, NoMemory> {
        self.answers.reserve(1)?;
        let answer = answer_line(self.rt, self.alloc, self.desk, self.jobs, line)?;
        let reply = answer.reply();
        self.answers.push_reserved(answer);
        Ok(reply)
    }
}

impl<D: SharedNode, N: Network> NodeThreads<'_, D, N> {
    /// Has the desk take the jobs of the channel with this seat, and hands back the result of each without waiting for
    /// a commit, until no session thread is left. It also ends if the desk has stopped and no job comes, since a
    /// session thread may not have begun yet. The seat forgets its notes: a peer may repeat its messages without end,
    /// and nobody reports the results of what isn't recorded.
    pub(crate) fn work<R: Wait + SystemClock>(&self, rt: &R, seat: &mut Seat)
        requires { AreOfThread D.is_to_send
            (IsReceivedBy (N.leads self.now.network.now) N.Reader.remaining N.Writer.contents)
            (N.Clock.tells self.now.network.now) seat.old }
        ensures { AreOfThread D.is_to_send
            (IsReceivedBy (N.leads self.now.network.now) N.Reader.remaining N.Writer.contents)
            (N.Clock.tells self.now.network.now) seat.new }
    {
        for _ in rt.forever() {
            let Some(request) = receive(rt, self.desk, &self.requests) else {
                break;
            };
            let JobRequest { job, back } = request;
            let begun = begin_job(rt, self.desk, seat, self.network, self.network, job);
            seat.forget_notes();
            drop(back.send(rt, begun));
            drop(back);
        }
    }
}
