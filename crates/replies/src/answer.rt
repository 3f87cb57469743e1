//! The reply of a node to a line.
ghost use Rattle.std.specs.Prelude.{◌≡◌, ◌⊎◌, ℕ, IfOk, None, Some, option_copied};
ghost use Rattle.units.specs.RefusalCodes.{not_a_message, node_stopped, out_of_memory};
ghost use Rattle.replies.specs.Answers.{Backs, IsAnswer, IsBare, IsRefusedBy};
ghost use Rattle.replies.specs.Lines.{IsUnread};

use desk::Receipt;
use std::alloc::Global;
use std::marker::Model;
use units::refusal_code::NODE_STOPPED;
use units::{NoMemory, Refusal};
use wire::{Reply, ReplyCode};

/// A line and its reply. Every reply has a receipt, except three: `NOT_A_MESSAGE` if the line writes no message,
/// `NODE_STOPPED` and `OUT_OF_MEMORY`. The receipt is of the line's message, and the result in it gives the reply.
#[derive(Debug)]
pub struct Answer {
    line: Vec<u8>,
    reply: Reply,
    receipt: Option<Receipt>,
}

// Written out, since a derived destructor is proved anew in each crate that lets a value go.
impl Drop for Answer {
    fn drop(self) {
        let Answer {
            line,
            reply: _,
            receipt,
        } = self;
        drop(line);
        drop(receipt);
    }
}

impl Model for Answer {
    ghost use Rattle.replies.specs.Answers.{AnswerView, IsAnswer};

    ghost Value = { AnswerView };

    ghost view = { λ a. record { line = a.line.items; reply = a.reply; receipt = a.receipt } };

    ghost invariant = { λ a. IsAnswer a.line.items a.reply a.receipt };
}

impl Answer {
    /// The line, without its newline.
    pub fn line(&self) -> &[u8]
        ensures { result.now ≡ self.now.line }
    {
        self.line.as_slice()
    }

    /// The reply to the line.
    pub fn reply(&self) -> Reply
        ensures { result ≡ self.now.reply }
    {
        self.reply
    }

    /// The receipt of the line's message, or `None` if no journal judged it. Without one, the reply is `NOT_A_MESSAGE`,
    /// `NODE_STOPPED` or `OUT_OF_MEMORY`; with one, the result for the message gives the reply.
    pub fn receipt(&self) -> Option<&Receipt>
        ensures value { option_copied result ≡ self.now.receipt }
        ensures backs { IsAnswer self.now.line self.now.reply self.now.receipt }
    {
        self.receipt.as_ref()
    }

    /// An answer without a receipt.
    pub(crate) fn bare(line: Vec<u8>, reply: Reply) -> Answer
        requires { IsBare line.items reply }
        ensures { result ≡ record { line = line.items; reply = reply; receipt = None } }
    {
        Answer {
            line,
            reply,
            receipt: None,
        }
    }

    /// An answer with a receipt.
    pub(crate) fn backed(line: Vec<u8>, reply: Reply, receipt: Receipt) -> Answer
        requires { Backs line.items reply receipt }
        ensures { result ≡ record { line = line.items; reply = reply; receipt = Some receipt } }
    {
        Answer {
            line,
            reply,
            receipt: Some(receipt),
        }
    }

    /// The answer to a line that was refused when it was read as a message. Fails with `NoMemory` if memory ran out.
    pub fn unread(alloc: Global, line: &[u8], refusal: Refusal) -> Result<Answer, NoMemory>
        requires { IsUnread line.now refusal }
        ensures line { IfOk result (λ a. a.line ≡ line.now) }
        ensures reply { IfOk result (λ a. IsRefusedBy refusal.code a.reply) }
        ensures receipt { IfOk result (λ a. a.receipt ≡ None) }
    {
        let line = Vec::from_slice(alloc, line)?;
        let reply = refused_by(refusal.code);
        Ok(Answer::bare(line, reply))
    }

    /// The answer of a node that has stopped.
    pub fn stopped(line: Vec<u8>) -> Answer
        ensures line { result.line ≡ line.items }
        ensures reply { IsRefusedBy node_stopped result.reply }
        ensures receipt { result.receipt ≡ None }
    {
        Answer::bare(line, refused_by(NODE_STOPPED))
    }
}

/// The reply that refuses by a code that needs no receipt.
pub(crate) fn refused_by(code: u16) -> Reply
    requires { (code ≡ not_a_message) ⊎ ((code ≡ node_stopped) ⊎ (code ≡ out_of_memory)) }
    ensures { IsRefusedBy code result }
{
    Reply::Refused(ReplyCode { number: code })
}
