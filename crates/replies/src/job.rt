//! A line with its message.
ghost use Rattle.std.specs.Prelude.{◌≡◌, IfOk, IfErr};
ghost use Rattle.wire.specs.Messages.{IsLine};
ghost use Rattle.replies.specs.Lines.{IsUnread};

use std::alloc::Global;
use std::marker::Model;
use units::Refusal;
use wire::Message;
use wire_lines::decode;

/// A line without its newline, and the message that it writes.
#[derive(Debug)]
pub struct Job {
    line: Vec<u8>,
    message: Message,
}

// Written out, since a derived destructor is proved anew in each crate that lets a value go.
impl Drop for Job {
    fn drop(self) {
        let Job { line, message } = self;
        drop(line);
        drop(message);
    }
}

impl Model for Job {
    ghost use Rattle.wire.specs.Messages.{IsLine};
    ghost use Rattle.replies.specs.Lines.{JobView};

    ghost Value = { JobView };

    ghost view = { λ j. record { line = j.line.items; message = j.message } };

    ghost invariant = { λ j. IsLine j.line.items j.message };
}

impl Job {
    /// A copy of the line with the message that it writes. Fails with `NOT_A_MESSAGE` if it writes none, and with
    /// `OUT_OF_MEMORY` if memory ran out.
    pub fn read(alloc: Global, line: &[u8]) -> Result<Job, Refusal>
        ensures ok { IfOk result (λ job. (job.line ≡ line.now) × IsLine line.now job.message) }
        ensures refused { IfErr result (λ refusal. IsUnread line.now refusal) }
    {
        let message = decode(alloc, line)?;
        match Vec::from_slice(alloc, line) {
            Ok(line) => Ok(Job { line, message }),
            Err(_) => Err(Refusal::NO_MEMORY),
        }
    }

    /// The line, without its newline.
    pub fn line(&self) -> &[u8]
        ensures { result.now ≡ self.now.line }
    {
        self.line.as_slice()
    }

    /// The message that the line writes.
    pub fn message(&self) -> &Message
        ensures value { result.now ≡ self.now.message }
        ensures read { IsLine self.now.line self.now.message }
    {
        &self.message
    }

    /// The line and its message.
    pub fn into_parts(self) -> (Vec<u8>, Message)
        ensures line { result.0.items ≡ self.line }
        ensures message { result.1 ≡ self.message }
        ensures read { IsLine self.line self.message }
    {
        let Job { line, message } = self;
        (line, message)
    }
}
