//! One message and its reply.
ghost use Rattle.std.specs.Prelude.{◌≡◌, ◌+◌, ◌≤◌, ◌++◌, ◌∷◌, [], IfOk, vec_capacity};
ghost use Rattle.units.specs.Limits.{longest_line};
ghost use Rattle.wire.specs.Messages.{message_text};
ghost use Rattle.exchanges.specs.Exchanges.{Exchanges};

use crate::counted::Counted;
use crate::ends::Exchange;
use crate::reading::{LineEnd, read_line};
use std::alloc::Global;
use std::io::{Read, Write};
use streams::MOST_INTERRUPTIONS;
use units::NoMemory;
use units::limits::LONGEST_LINE;
use wire::{Message, Reply, ReplyFault, encode};

/// The message's text with its newline, and an empty line that has room for a reply.
fn make_room(alloc: Global, message: &Message) -> Result<(Vec<u8>, Vec<u8>), NoMemory>
    ensures text { IfOk result (λ p. p.0.items ≡ message_text message.now ++ 10 ∷ []) }
    ensures line { IfOk result (λ p. p.1.items ≡ []) }
    ensures room { IfOk result (λ p. longest_line + 1 ≤ vec_capacity p.1) }
{
    let mut text = encode(alloc, message)?;
    text.push(b'\n')?;
    let line = Vec::with_capacity(alloc, LONGEST_LINE + 1)?;
    Ok((text, line))
}

/// Writes the message's text with its newline, and reads the reply: up to the first newline, and 8,193 bytes at most.
/// Takes all memory first, except the memory for parsing the reply. An interrupted call is made again.
///
/// Each end says which bytes were written and read. `failures` of the writer has changed only at `WriteFault`, and that
/// of the reader only at `ReadFault`.
pub fn exchange<R: Read, W: Write>(
    alloc: Global,
    reader: &mut Counted<R>,
    writer: &mut Counted<W>,
    message: &Message,
) -> Exchange
    ensures { Exchanges R.remaining W.contents reader.old reader.new writer.old writer.new
        (message_text message.now ++ 10 ∷ []) result }
{
    let Ok((text, mut line)) = make_room(alloc, message) else {
        return Exchange::NoMemory;
    };
    let mut left = MOST_INTERRUPTIONS;
    if let Err(count) = writer.write_all(&mut left, text.as_slice()) {
        return Exchange::WriteFault(count);
    }
    match read_line(reader, &mut line) {
        LineEnd::Newline => match Reply::read(alloc, line.as_slice()) {
            Ok(reply) => Exchange::Answered(reply),
            Err(ReplyFault::NotReply) => Exchange::BadReply,
            Err(ReplyFault::NoMemory) => Exchange::NoMemory,
        },
        LineEnd::TooLong => Exchange::BadReply,
        LineEnd::Ended => Exchange::PeerEnded,
        LineEnd::Fault => Exchange::ReadFault,
    }
}
