//! Replies to the lines of one session, by a desk.
ghost use Rattle.std.specs.Prelude.{◌≡◌, [], IfOk, OnErr};
ghost use Rattle.replies.specs.Answers.{Replies};

use crate::answer::Answer;
use crate::job::Job;
use crate::pending::answer_job;
use desk::{Clock, OpenGate, Seat, SharedNode};
use exchanges::Answerer;
use std::alloc::Global;
use std::marker::Model;
use std::rt::Clock as SystemClock;
use std::sync::Wait;
use units::NoMemory;
use wire::Reply;

/// Replies to lines by a desk, with a seat of its own, and keeps the answers.
#[derive(Drop)]
pub struct DeskAnswerer<'a, D: SharedNode, K: Clock, R: Wait> {
    rt: &'a R,
    alloc: Global,
    desk: &'a D,
    clock: &'a K,
    seat: Seat,
    answers: Vec<Answer>,
}

impl<'a, D: SharedNode, K: Clock, R: Wait> Model for DeskAnswerer<'a, D, K, R> {
    ghost use Rattle.replies.specs.Answers.{DeskAnswererView};

    ghost Value = { DeskAnswererView K };

    ghost view = { λ s. record { clock = s.clock.now; seat = s.seat; answers = s.answers.items } };
}

/// The answer to a line, by the desk with that seat if the line writes a message. Fails with `NoMemory` if memory ran
/// out, and the desk has taken nothing.
fn answer_line<D: SharedNode, K: Clock, R: Wait + SystemClock>(
    rt: &R,
    alloc: Global,
    desk: &D,
    seat: &mut Seat,
    clock: &K,
    line: &[u8],
) -> Result<Answer, NoMemory>
    ensures line { IfOk result (λ answer. answer.line ≡ line.now) }
    ensures replies { IfOk result (λ answer. Replies (K.tells clock.now) seat.old seat.new line.now answer) }
    ensures err { OnErr result (seat.new ≡ seat.old) }
{
    match Job::read(alloc, line) {
        Ok(job) => Ok(answer_job(rt, desk, seat, clock, &OpenGate, job)),
        Err(refusal) => Answer::unread(alloc, line, refusal),
    }
}

impl<'a, D: SharedNode, K: Clock, R: Wait> DeskAnswerer<'a, D, K, R> {
    /// Replies by that desk with that seat, at the moments of the clock. It has no answers yet.
    pub fn new(
        rt: &'a R,
        alloc: Global,
        desk: &'a D,
        seat: Seat,
        clock: &'a K,
    ) -> DeskAnswerer<'a, D, K, R>
        ensures { result ≡ record { clock = clock.now; seat = seat; answers = [] } }
    {
        DeskAnswerer {
            rt,
            alloc,
            desk,
            clock,
            seat,
            answers: Vec::new(alloc),
        }
    }

    /// The answers to the lines that it was given, the first one first.
    pub fn answers(&self) -> &[Answer]
        ensures { result.now ≡ self.now.answers }
    {
        self.answers.as_slice()
    }

    /// Its seat.
    pub fn into_seat(self) -> Seat
        ensures { result ≡ self.entry.seat }
    {
        let DeskAnswerer {
            rt: _,
            alloc: _,
            desk: _,
            clock: _,
            seat,
            answers: _,
        } = self;
        seat
    }
}

impl<'a, D: SharedNode, K: Clock, R: Wait + SystemClock> Answerer for DeskAnswerer<'a, D, K, R> {
    ghost use Rattle.exchanges.specs.Given.{GivesOne};
    ghost use Rattle.replies.specs.Answers.{RepliesOnce, given_of};

    ghost given = { λ s. given_of s.answers };

    /// The reply to a line, by the desk if the line writes a message. Adds the answer at the end of the answers. Fails
    /// with `NoMemory` if memory ran out. Then the desk has taken nothing, and the answers are as they were.
    fn answer(&mut self, line: &[u8]) -> Result<Reply, NoMemory>
        ensures given { GivesOne (given_of self.old.answers) (given_of self.new.answers) line.now result }
        ensures replies { RepliesOnce K.tells self.old self.new line.now result }
    {
        self.answers.reserve(1)?;
        let answer = answer_line(
            self.rt,
            self.alloc,
            self.desk,
            &mut self.seat,
            self.clock,
            line,
        )?;
        let reply = answer.reply();
        self.answers.push_reserved(answer);
        Ok(reply)
    }
}
