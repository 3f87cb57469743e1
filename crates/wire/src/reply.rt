//! The replies of a node to messages.
ghost use Rattle.std.specs.Prelude.{◌≡◌, ℕ, List, Err, IfOk, IfSome, IfNone};
ghost use Rattle.serde_json.specs.View.{view};
ghost use Rattle.wire.specs.Objects.{HasExactly};
ghost use Rattle.wire.specs.Replies.{reply_fields, reply_text, IsReply};
ghost use Rattle.wire.specs.declared.reply.Reply.{Reply};

use crate::reply_code::ReplyCode;
use json_fields::{has_keys, number_at, text_at};
use serde_json::Value;
use std::alloc::Global;
use thiserror::Error;
use units::limits::LONGEST_LINE;
use units::refusal_code::OUT_OF_MEMORY;

/// The reply of a node to a message.
#[derive(Clone, Copy, Debug, PartialEq, Eq)]
pub enum Reply {
    /// The message was received.
    Received,
    /// The message was refused, for the reason with this code.
    Refused(ReplyCode),
}

/// Why a line isn't read as a reply.
#[derive(Clone, Copy, Debug, PartialEq, Eq, Error)]
pub enum ReplyFault {
    /// It is not a reply's JSON.
    #[error("not a reply")]
    NotReply,
    /// An allocation was refused; that says nothing about the line.
    #[error("out of memory")]
    NoMemory,
}

/// The reply that the value writes.
fn reply_in(value: &Value) -> Option<Reply>
    ensures some { IfSome result (λ r. HasExactly (view value.now) (reply_fields r)) }
    ensures none { IfNone result ((r : Reply) → HasExactly (view value.now) (reply_fields r) → ⊥) }
{
    if !has_keys(value, 2) {
        return None;
    }
    let code = number_at(value, "code")?;
    let result = text_at(value, "result")?;
    if code == 0 && result == "received" {
        return Some(Reply::Received);
    }
    if result != "refused" || code > OUT_OF_MEMORY as u64 {
        return None;
    }
    let code = ReplyCode::new(code as u16)?;
    Some(Reply::Refused(code))
}

impl Reply {
    /// Its text: 30 bytes, without a newline.
    pub fn write(&self) -> [u8; 30]
        ensures { result ≡ reply_text self.now }
    {
        match self {
            Reply::Received => *b"{\"code\":0,\"result\":\"received\"}",
            Reply::Refused(code) => {
                let mut text = *b"{\"code\":00,\"result\":\"refused\"}";
                text[8] = b'0' + (code.number / 10) as u8;
                text[9] = b'0' + (code.number % 10) as u8;
                text
            }
        }
    }

    /// The reply that a line without its newline writes, with the keys in any order and any blanks between.
    ///
    /// - `NotReply`: it has more than `LONGEST_LINE` bytes, or is no JSON in UTF-8, or its JSON value is not an object
    ///   with exactly the keys `code` and `result`, or these are neither 0 and `received` nor a `ReplyCode` and
    ///   `refused`.
    /// - `NoMemory`: an allocation was refused; that says nothing about the line.
    pub fn read(alloc: Global, line: &[u8]) -> Result<Reply, ReplyFault>
        ensures ok { IfOk result (λ r. IsReply line.now r) }
        ensures fault { result ≡ Err ReplyFault.NotReply → (r : Reply) → IsReply line.now r → ⊥ }
    {
        if line.len() > LONGEST_LINE {
            return Err(ReplyFault::NotReply);
        }
        match Value::from_slice(alloc, line) {
            Ok(value) => reply_in(&value).ok_or(ReplyFault::NotReply),
            Err(e) if e.is_memory() => Err(ReplyFault::NoMemory),
            Err(_) => Err(ReplyFault::NotReply),
        }
    }
}

/// The text of a reply is read as that reply, and a line writes at most one reply.
pub fn one_reply()
    ensures written { (r : Reply) → IsReply (reply_text r) r }
    ensures one { (line : List ℕ) (r s : Reply) → IsReply line r → IsReply line s → r ≡ s }
{}
